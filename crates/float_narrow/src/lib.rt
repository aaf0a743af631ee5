// Narrowing an f64 to an f32, on bit patterns and on floats.
#![tactic(auto)]

mod narrowing;

pub use narrowing::{narrow, narrow_f64};
