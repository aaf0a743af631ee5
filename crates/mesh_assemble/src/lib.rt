// Assembling: the accepted patches of a body as one mesh with a run per material and a range per face, the failures, and the edge counts.
#![tactic(auto)]

mod assembling;

pub use assembling::assemble;
