// The decision on each row, and what the accepted rows have together.
#![tactic(auto)]

mod judge;
mod totals;

pub use judge::{judge_rows, row_verdict};
pub use totals::{Totals, accepted_totals};
