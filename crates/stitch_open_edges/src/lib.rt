// Open edges, marked by a flag for each use.
#![tactic(auto)]

mod open;

pub use open::mark_open;
