// How many uses each edge has.
#![tactic(auto)]

mod counts;

pub use counts::{count_one, count_uses};
