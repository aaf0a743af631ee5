// Check 41: room for the mesh and its tables.
#![tactic(auto)]

mod lengths;

pub use lengths::too_short;
