// What finding the points that split a triangle looks at: the triangle's edges, and where lists and flags stand.
#![tactic(auto)]

mod finder;
mod sides;

pub use finder::Finder;
pub use sides::{Sides, Spot, TriangleEdge, side_of};

// An entry of a placed point is its edge times this number, and its vertex, which is below it.
pub const EDGE_STEP: u64 = 262144;
