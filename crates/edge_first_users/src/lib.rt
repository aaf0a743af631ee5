// The uses of edges of a body: each named for joining, with its row and the way it runs.
#![tactic(auto)]

mod bodies;
mod users;

pub use bodies::{list_rows, list_runs, name_uses};
pub use users::{first_users, list_uses};
