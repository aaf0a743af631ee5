// Narrowing an f64 to an f32, to nearest, ties to even, in integers.

ghost use Rattle.std.specs.Prelude.{◌≡◌, ◌^◌, ◌<◌};
ghost use Rattle.std.specs.Float.Ieee.Nearest.{closest};
ghost use Rattle.float_narrow.specs.Narrow.{narrow, narrow_bits};

use float_steps::{bits_of_f64, f32_of_bits, power};

// The whole number nearest to m / 2^k, a tie to the even one: short of a half more is added, and the rest of a half where the whole part is odd.
fn nearest(m: u64, k: u64) -> u64
    requires k_nonzero { 0 < k }
    requires k_bound { k < 63 }
    requires m_bound { m < 2 ^ 62 }
    ensures { result ≡ closest m (2 ^ k) }
{
    let half = power(k - 1);
    (m + (half - 1) + (m >> k) % 2) >> k
}

// The bits of the f32 nearest to the f64 with the bits b. From an exponent's field of 897 on it is normal or an infinity, from 872 on subnormal, and
// below that a zero.
pub fn narrow(b: u64) -> u32
    ensures { result ≡ narrow_bits b }
{
    let s = b / 0x8000_0000_0000_0000 * 0x8000_0000;
    let e = b % 0x8000_0000_0000_0000 / 0x10_0000_0000_0000;
    let m = 0x10_0000_0000_0000 + b % 0x10_0000_0000_0000;
    if e < 872 {
        return s as u32;
    }
    if e < 897 {
        return (s + nearest(m, 926 - e)) as u32;
    }
    if 0x7ff0_0000_0000_0000 < b % 0x8000_0000_0000_0000 {
        return 0x7fc0_0000;
    }
    let n = (e - 897) * 0x80_0000 + nearest(m, 29);
    if n < 0x7f80_0000 {
        (s + n) as u32
    } else {
        (s + 0x7f80_0000) as u32
    }
}

// The f32 nearest to x.
pub fn narrow_f64(x: f64) -> f32
    ensures { result ≡ narrow x }
{
    f32_of_bits(narrow(bits_of_f64(x)))
}
