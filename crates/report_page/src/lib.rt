// The page of the report in numbers: what the rows of a body add, whether a page is refused, and the page with a body added.
#![tactic(auto)]

mod counts;
mod divisor;
mod page;

pub use counts::{RowCounts, count_rows};
pub use page::{bad_page, page_with};
