// The float steps on bit patterns.

ghost use Rattle.std.specs.Prelude.{◌≡◌};
ghost use Rattle.float_steps.specs.Floats.{widen_bits, larger_bits};
ghost use Rattle.float_narrow.specs.Narrow.{narrow_bits};
ghost use Rattle.float_sqrt.specs.Roots.{sqrt_bits};
ghost use Rattle.float_round.specs.Integral.{round_bits};

// The bits of an f32 as those of the f64 of the same value.
#[unsafe(no_mangle)]
pub extern "C" fn cad_widen(b: u32) -> u64
    ensures { result ≡ widen_bits b }
{
    float_steps::widen(b)
}

// The bits of the f32 nearest to an f64, ties to even.
#[unsafe(no_mangle)]
pub extern "C" fn cad_narrow(b: u64) -> u32
    ensures { result ≡ narrow_bits b }
{
    float_narrow::narrow(b)
}

// The bits of the f64 nearest to the square root.
#[unsafe(no_mangle)]
pub extern "C" fn cad_sqrt(b: u64) -> u64
    ensures { result ≡ sqrt_bits b }
{
    float_sqrt::sqrt(b)
}

// The bits of the nearest whole number, halves away from zero.
#[unsafe(no_mangle)]
pub extern "C" fn cad_round(b: u64) -> u64
    ensures { result ≡ round_bits b }
{
    float_round::round(b)
}

// The bits of the larger of two: a NaN is ignored, +0 is above −0.
#[unsafe(no_mangle)]
pub extern "C" fn cad_larger(a: u64, b: u64) -> u64
    ensures { result ≡ larger_bits a b }
{
    float_steps::larger(a, b)
}
