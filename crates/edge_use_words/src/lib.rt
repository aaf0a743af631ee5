// The words of a use of an edge: its name and the way it runs, by triangle and by row.
#![tactic(auto)]

mod rows;
mod words;

pub use rows::{name_row, run_row};
