// Loose points: the corners of triangles with an open edge, listed by key.
#![tactic(auto)]

mod gather;
mod stand;

pub use gather::{any_set, corner, gather_loose};
