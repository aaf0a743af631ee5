// Checks 33 and 32 of the result of stitching.
#![tactic(auto)]

mod sizes;

pub use sizes::result_failing;
