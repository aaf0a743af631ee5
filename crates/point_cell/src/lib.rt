// The cell of a coordinate, and the whole number nearest a multiple of it, from the bits of its f32.
#![tactic(auto)]

ghost use Rattle.std.specs.Prelude.{◌≡◌, ◌^◌, ◌≤◌, ◌<◌, min};
ghost use Rattle.float_round.specs.Integral.{half_up};
ghost use Rattle.point_rules.specs.Points as Points;
ghost use Rattle.point_cell.specs.Scale.{NearestWord, Scale};
ghost use Rattle.point_cell.specs.Told.{cell_told};

use float_steps::bits_of_f32;

// How many cells a unit of length has.
const CELLS: u64 = 1000000;

// 2^63: no cell is further from zero.
const LIMIT: u64 = 9223372036854775808;

// The largest cell.
const LARGEST: i64 = 9223372036854775807;

// q / 2 to the nearest whole number, a half up.
fn half_up(q: u64) -> u64
    requires { q < 2 ^ 63 }
    ensures { result ≡ half_up q 2 }
{
    (q + 1) / 2
}

// How far the whole number nearest factor × v is from zero, or the most that is asked for: the 24 digits of v times the factor are below 2^44, so that one
// shift rounds them, a half up.
fn nearest_size(v: f32, factor: u64, most: u64) -> u64
    requires { Scale factor most }
    ensures { result ≡ min (Points.nearest_size factor v) most }
{
    let b = bits_of_f32(v) as u64;
    let e = b % 2147483648 / 8388608;
    let t = b % 8388608;
    let a = factor * (8388608 + t);
    if e < 105 {
        return 0;
    }
    if e < 150 {
        return half_up(a >> (149 - e));
    }
    if e < 171 {
        return (a << (e - 150)).min(most);
    }
    if e == 255 {
        if t != 0 {
            return 0;
        }
    }
    most
}

// The word of the whole number nearest factor × v: `middle` more, so that it isn't negative, and no farther from it than it is from zero.
pub fn nearest_word(v: f32, factor: u64, middle: u64) -> u64
    requires scale { Scale factor middle }
    requires middle_bound { middle ≤ 2 ^ 62 }
    ensures { NearestWord factor middle v result }
{
    let n = nearest_size(v, factor, middle);
    if bits_of_f32(v) < 2147483648 {
        middle + n
    } else {
        middle - n
    }
}

// How far the cell is from zero, before the sign decides the clamp.
fn cell_size(v: f32) -> u64
    ensures { result ≡ Points.cell_size v }
{
    nearest_size(v, CELLS, LIMIT)
}

// The 64 bits of the cell of v.
pub fn cell_bits(v: f32) -> u64
    ensures { result ≡ Points.pattern (Points.cell v) }
{
    let n = cell_size(v);
    if bits_of_f32(v) < 2147483648 {
        if n < LIMIT { n } else { LIMIT - 1 }
    } else {
        if n == 0 { 0 } else { u64::MAX - (n - 1) }
    }
}

// The first size of a coordinate, as its bits without the sign, whose cell is clamped: 9,223,373,062,144.
const FIRST_CLAMPED: u32 = 0x5506_37BE;

// The bits of infinity: what stands above them is a NaN.
const INFINITE: u32 = 0x7F80_0000;

// Whether the cell of v is clamped: the size decides, as no coordinate times 1,000,000 is -2^63. Both ends are one test, so that a loop over many has no jump.
pub fn clamps(v: f32) -> bool
    ensures { result ≡ Points.clamps v }
{
    let b = bits_of_f32(v) % 2147483648;
    (b >= FIRST_CLAMPED) & (b <= INFINITE)
}

// The whole number nearest 1,000,000 × v, halves away from zero, clamped to signed 64 bits; 0 of a NaN.
fn cell_value(v: f32) -> i64
    ensures { result ≡ Points.cell v }
{
    let n = cell_size(v);
    if bits_of_f32(v) < 2147483648 {
        if n < LIMIT { n as i64 } else { LARGEST }
    } else {
        if n == 0 { 0 } else { (0 - (n - 1) as i64) - 1 }
    }
}

// A cell, and whether it was clamped.
#[derive(Clone, Copy)]
pub struct CellAnswer {
    pub value: i64,
    pub clamped: bool,
}

// The cell of v, and whether it was clamped.
pub fn cell(v: f32) -> CellAnswer
    ensures { result ≡ cell_told v }
{
    CellAnswer {
        value: cell_value(v),
        clamped: clamps(v),
    }
}
