// A line of a plan: where it ends, what it is, and the place that a bin has by it.
#![tactic(auto)]

mod lines;
mod places;

pub use lines::{LineAt, PlanLine, line_at};
pub use places::{SumWords, moved, origin, put_entry, sum_in_range};
