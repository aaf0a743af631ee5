// Rounding an f64 to the nearest whole number, halves away from zero, in integers.

ghost use Rattle.std.specs.Prelude.{◌≡◌, ◌*◌, ◌^◌, ◌<◌, ◌≤◌};
ghost use Rattle.float_round.specs.Integral.{half_up, round_away, round_bits};

use float_steps::{bits_of_f64, f64_of_bits, power};

// m with its k lowest bits rounded, a half up.
fn rounded(m: u64, k: u64) -> u64
    requires m_bound { m < 2 ^ 53 }
    requires k_bound { k ≤ 53 }
    ensures { result ≡ half_up m (2 ^ k) * 2 ^ k }
{
    let u = power(k);
    ((m * 2 + u) >> (k + 1)) * u
}

// The bits of the whole number nearest to the f64 with the bits b. Below an exponent's field of 1022 it is a zero, and from 1075 on the value is whole.
pub fn round(b: u64) -> u64
    ensures { result ≡ round_bits b }
{
    let s = b / 0x8000_0000_0000_0000 * 0x8000_0000_0000_0000;
    let e = b % 0x8000_0000_0000_0000 / 0x10_0000_0000_0000;
    if e < 1022 {
        return s;
    }
    if 0x7ff0_0000_0000_0000 < b % 0x8000_0000_0000_0000 {
        return 0x7ff8_0000_0000_0000;
    }
    if 1075 <= e {
        return b;
    }
    let m = 0x10_0000_0000_0000 + b % 0x10_0000_0000_0000;
    s + (e - 1) * 0x10_0000_0000_0000 + rounded(m, 1075 - e)
}

// The whole number nearest to x, as a float.
pub fn round_f64(x: f64) -> f64
    ensures { result ≡ round_away x }
{
    f64_of_bits(round(bits_of_f64(x)))
}
