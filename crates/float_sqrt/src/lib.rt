// The square root of an f64, on bit patterns and on floats.
#![tactic(auto)]

mod root;

pub use root::{sqrt, sqrt_f64};
