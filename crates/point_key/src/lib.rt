// The key of a point, multiplication that keeps the low 64 bits, and the names of the vertices of a slice.
#![tactic(auto)]

pub mod key;
pub mod multiply;
pub mod vertex;
