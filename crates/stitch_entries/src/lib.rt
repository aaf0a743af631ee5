// Found points in the work area: a pair appended, and entries made of the pairs that are not close to the one kept before.
#![tactic(auto)]

mod entries;
mod keeping;

pub use entries::{append_pair, drop_close, entry_edge, entry_parameter};
pub use keeping::keep_in_order;
