// A listing written as a plan's text, a bin line for each entry of a lent list.
#![tactic(auto)]

mod entries;
mod listing;

pub use listing::write_plan;
