// A plan's text read into a lent list: its bins in the order read, each at the sum along its path.
#![tactic(auto)]

mod groups;
mod items;
mod path;
mod plan;

pub use plan::read_plan;
