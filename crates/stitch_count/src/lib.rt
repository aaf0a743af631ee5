// The splits of a body counted: the work area made ready, and every triangle's splits found.
#![tactic(auto)]

mod count;
mod ordering;
pub mod prepare;

pub use count::{count_splits, find_splits};
