// The rows of a body put in the order of their materials, and where each is found.
#![tactic(auto)]

mod order;

pub use order::{INDICES, ROWS, first_accepted, order_rows};
