// Loose points ordered so that blocks of them lie close together, and the boxes of the blocks.
#![tactic(auto)]

mod boxes;
mod order;
mod points;
mod tree;

pub use boxes::box_at;
pub use tree::make_tree;

// An order word is a place times this number, and a vertex, which is below it.
pub const PLACE_STEP: u64 = 262144;

// A leaf has so many words.
pub const LEAF: usize = 8;
