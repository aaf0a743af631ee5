// Rounding an f64 to the nearest whole number, on bit patterns and on floats.
#![tactic(auto)]

mod integral;

pub use integral::{round, round_f64};
