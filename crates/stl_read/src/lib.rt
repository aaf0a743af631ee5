// An STL file read into one row of lent slices.
#![tactic(auto)]

mod corners;
mod failing;
mod read;
mod slices;
mod words;

pub use read::read_stl;
