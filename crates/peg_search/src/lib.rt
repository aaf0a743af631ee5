// The bins nearest a peg, found by passes over the rows of a placed body: one for the smallest sum of squares, and one for each further bin that shares it.
#![tactic(auto)]

mod best;
mod passes;

pub use best::Best;
pub use passes::{find_best, list_bins};
