// The points that split a triangle: found by edge among the loose vertices, placed and kept.
#![tactic(auto)]

mod finding;
mod placing;
mod search;
mod triangle;

pub use search::Tally;
pub use triangle::split_triangle;
