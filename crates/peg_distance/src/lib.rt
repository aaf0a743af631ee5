// How near the vertices of a row come to a peg, in words of whole micrometres that aren't negative.
#![tactic(auto)]

mod distance;
mod target;

pub use distance::{BEYOND, row_least};
pub use target::{PLACE_WIDTH, Target, peg_words, row_target};
