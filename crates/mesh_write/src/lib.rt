// The mesh of the accepted rows written to the lent slices, with its tables, failures and edge counts.
#![tactic(auto)]

mod written;

pub use written::write_mesh;
