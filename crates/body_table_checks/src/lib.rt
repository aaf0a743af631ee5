// Checks 11 to 15: the table, its sizes, the lengths of the slices, and the bins.
#![tactic(auto)]

mod limits;
mod table;

pub use limits::{MOST_INDICES, MOST_ROWS, MOST_VERTICES, too_many};
pub use table::table_failing;
