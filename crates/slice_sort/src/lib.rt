// Words of a slice sorted, bit by bit, the lowest bit first.
#![tactic(auto)]

mod sort;
mod split;

pub use sort::sort_words;
