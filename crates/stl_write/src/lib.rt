// The file of a mesh written to a lent slice.
#![tactic(auto)]

mod bytes;
mod facet;
mod file;

pub use file::write_stl;
