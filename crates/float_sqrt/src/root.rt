// The square root of an f64, to nearest, in integers.

ghost use Rattle.std.specs.Prelude.{◌≡◌, true, ◌-◌, ◌*◌, ◌^◌, ◌<◌, ◌≤◌};
ghost use Rattle.float_sqrt.specs.Root.{Near};
ghost use Rattle.float_steps.specs.Floats.{bits64};
ghost use Rattle.float_sqrt.specs.Roots.{nearest_root, root_of, sqrt, sqrt_bits};

use float_steps::{bits_of_f64, f64_of_bits, power};

// The whole number nearest to the square root of n * 2^52, for an n of 53 or 54 bits: two bits of the square at a time.
fn root_by_digits(n: u64) -> u64
    requires bound { 2 ^ 52 ≤ n }
    requires n_bound { n ≤ 2 ^ 54 - 2 }
    ensures { result ≡ nearest_root (n * 2 ^ 52) }
{
    let mut left = n * 1024;
    let mut s: u64 = 0;
    let mut r: u64 = 0;
    for i in 0..53u64 {
        r = r * 4 + left / 0x4000_0000_0000_0000;
        left = left % 0x4000_0000_0000_0000 * 4;
        let t = s * 4 + 1;
        s = s * 2;
        if t <= r {
            r = r - t;
            s = s + 1;
        }
    }
    if s < r { s + 1 } else { s }
}

// A guess at the root of m * 2^p * 2^52, for an m of 53 bits and a p of 0 or 1, by Newton's rule on its inverse and one step more. Nothing relies on its being
// near: it is
// tested, and only has to have 53 bits.
fn guess(m: u64, p: u64) -> u64
    requires bound { 2 ^ 52 ≤ m }
    requires m_bound { m < 2 ^ 53 }
    requires p_bound { p < 2 }
    ensures { result < 2 ^ 53 }
{
    let b = 0x3fe0_0000_0000_0000 + p * 0x10_0000_0000_0000 + m;
    let x = f64::from_bits(b);
    let h = x * 0.5;
    let y0 = f64::from_bits(0x5fe6_eb50_c7b5_37a9 - b / 2);
    let y1 = y0 * (1.5 - h * y0 * y0);
    let y2 = y1 * (1.5 - h * y1 * y1);
    let y = y2 * (1.5 - h * y2 * y2);
    let s = x * y;
    let t = s * 134217729.0;
    let u = t - (t - s);
    let v = s - u;
    let z = s + (x - u * u - 2.0 * u * v - v * v) * (y * 0.5);
    0x10_0000_0000_0000 + bits_of_f64(z) % 0x10_0000_0000_0000
}

// Whether q is the whole number nearest to the square root of n * 2^52. With q = h * 2^27 + l the square is h * h * 2^54 + h * l * 2^28 + l * l, and r - w
// comes to n * 2^52 less that.
fn is_root(n: u64, q: u64) -> bool
    requires n_bound { n ≤ 2 ^ 54 - 2 }
    requires q_bound { q < 2 ^ 53 }
    ensures { result ≡ true → Near (n * 2 ^ 52) q }
{
    let h = q / 0x800_0000;
    let l = q % 0x800_0000;
    let b = 4 * (h * h);
    if n + 2 < b {
        return false;
    }
    let c = n + 2 - b;
    if 0x40_0000_0000 <= c {
        return false;
    }
    let d = h * l;
    if c * 0x100_0000 < d {
        return false;
    }
    let t = c * 0x100_0000 - d;
    if 0x8_0000_0000 <= t {
        return false;
    }
    let r = t * 0x1000_0000;
    let w = l * l + 0x20_0000_0000_0000;
    if r + q <= w {
        return false;
    }
    r <= w + q
}

// The whole number nearest to the square root of n * 2^52: the guess q if it is that, and else by digits.
fn root(n: u64, q: u64) -> u64
    requires bound { 2 ^ 52 ≤ n }
    requires n_bound { n ≤ 2 ^ 54 - 2 }
    requires q_bound { q < 2 ^ 53 }
    ensures { result ≡ nearest_root (n * 2 ^ 52) }
{
    if is_root(n, q) { q } else { root_by_digits(n) }
}

// The bits of the root of m * 2^e units of 2^-2148, for an m of 53 bits.
fn root_bits(m: u64, e: u64) -> u64
    requires bound { 2 ^ 52 ≤ m }
    requires m_bound { m < 2 ^ 53 }
    requires le_e { 52 ≤ e }
    requires e_bound { e < 3120 }
    ensures { result ≡ bits64 (root_of (m * 2 ^ e)) }
{
    let p = e % 2;
    let q = root(m * (1 + p), guess(m, p));
    (e - 52) / 2 * 0x10_0000_0000_0000 + q
}

// The bits of the root of the f64 with the bits b.
pub fn sqrt(b: u64) -> u64
    ensures { result ≡ sqrt_bits b }
{
    if b % 0x8000_0000_0000_0000 == 0 {
        return b;
    }
    if 0x7ff0_0000_0000_0000 < b {
        return 0x7ff8_0000_0000_0000;
    }
    if b == 0x7ff0_0000_0000_0000 {
        return b;
    }
    if b < 0x10_0000_0000_0000 {
        let z = u64::leading_zeros(b) as u64 - 11;
        return root_bits(b * power(z), 1074 - z);
    }
    root_bits(
        0x10_0000_0000_0000 + b % 0x10_0000_0000_0000,
        b / 0x10_0000_0000_0000 + 1073,
    )
}

// The root of x.
pub fn sqrt_f64(x: f64) -> f64
    ensures { result ≡ sqrt x }
{
    f64_of_bits(sqrt(bits_of_f64(x)))
}
