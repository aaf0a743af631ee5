// Float steps that the language lacks, on bit patterns and on f32 and f64: widening, the larger of two, the absolute value; and powers of two.
// Each takes every input and answers what its definition in specs/Floats.antt says.
#![tactic(auto)]

mod comparison;
mod conversion;
mod powers;

pub use comparison::{absolute_f64, is_finite_f32, larger, larger_f64};
pub use conversion::{bits_of_f32, bits_of_f64, f32_of_bits, f64_of_bits, widen, widen_f32};
pub use powers::power;
