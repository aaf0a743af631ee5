// The failures of the rows that are not accepted, written to their table.
#![tactic(auto)]

mod failures;

pub use failures::write_failures;
