// Joining: for each of n named items, the first item of the same name.
#![tactic(auto)]

pub mod vertices;
pub mod words;
