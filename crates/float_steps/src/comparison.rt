// The larger of two, the absolute value, and whether a value is finite.

ghost use Rattle.std.specs.Prelude.{◌≡◌};
ghost use Rattle.float_steps.specs.Floats.{absolute, finite, larger, larger_bits};

use crate::conversion::{bits_of_f64, f64_of_bits};

// The larger of x and y: a NaN is ignored, and +0 is above -0.
pub fn larger_f64(x: f64, y: f64) -> f64
    ensures { result ≡ larger x y }
{
    if x != x {
        return y;
    }
    if y != y {
        return x;
    }
    if x < y {
        return y;
    }
    if y < x {
        return x;
    }
    if f64::to_bits(x) < 0x8000_0000_0000_0000 {
        x
    } else {
        y
    }
}

// The larger of the f64 with the bits a and b.
pub fn larger(a: u64, b: u64) -> u64
    ensures { result ≡ larger_bits a b }
{
    bits_of_f64(larger_f64(f64_of_bits(a), f64_of_bits(b)))
}

// x without its sign.
pub fn absolute_f64(x: f64) -> f64
    ensures { result ≡ absolute x }
{
    x.abs()
}

// Whether x is a number and no infinity.
pub fn is_finite_f32(x: f32) -> bool
    ensures { result ≡ finite x }
{
    x.is_finite()
}
