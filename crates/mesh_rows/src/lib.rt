// What a mesh has in row order: the vertices of its accepted rows, and a range for each.
#![tactic(auto)]

mod ranges;
mod vertices;

pub use ranges::write_ranges;
pub use vertices::write_vertices;
