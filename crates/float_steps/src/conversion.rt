// Bit patterns and floats, each way and for every pattern, and widening.

ghost use Rattle.std.specs.Prelude.{◌≡◌};
ghost use Rattle.float_steps.specs.Floats.{f32, f64, bits32, bits64, widen, widen_bits};

use std::num::{
    f32_from_bits_with_nan, f32_to_bits_with_nan, f64_from_bits_with_nan, f64_to_bits_with_nan,
};

// The f32 with the bits b: any NaN pattern gives the one NaN.
// The law named here lets a body that tells the patterns apart by itself be proved too, so that must-fail/widen_signalling_nan is refused for a fact.
#[tactic(auto, using(float_rounding::specs::Fields::no_nan_bits))]
pub fn f32_of_bits(b: u32) -> f32
    ensures { result ≡ f32 b }
{
    f32_from_bits_with_nan(b)
}

// The f64 with the bits b: any NaN pattern gives the one NaN.
pub fn f64_of_bits(b: u64) -> f64
    ensures { result ≡ f64 b }
{
    f64_from_bits_with_nan(b)
}

// The bits of x: a NaN's are 7FC00000.
pub fn bits_of_f32(x: f32) -> u32
    ensures { result ≡ bits32 x }
{
    f32_to_bits_with_nan(x)
}

// The bits of x: a NaN's are 7FF8000000000000.
pub fn bits_of_f64(x: f64) -> u64
    ensures { result ≡ bits64 x }
{
    f64_to_bits_with_nan(x)
}

// x as an f64, exactly.
pub fn widen_f32(x: f32) -> f64
    ensures { result ≡ widen x }
{
    f64::from(x)
}

// The bits of the f64 that is the f32 with the bits b.
pub fn widen(b: u32) -> u64
    ensures { result ≡ widen_bits b }
{
    bits_of_f64(widen_f32(f32_of_bits(b)))
}
