// The runs of a mesh, one for each material, and the parts that tell of them.
#![tactic(auto)]

mod parts;
mod runs;

pub use parts::write_runs;
