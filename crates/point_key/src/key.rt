// The key of a point.
ghost use Rattle.std.specs.Prelude.{◌≡◌, ◌^◌, ◌<◌};
ghost use Rattle.point_rules.specs.Points as Points;
ghost use Rattle.point_key.specs.Told.{key_told};

use crate::multiply::wrapping_mul;
use point_cell::{cell_bits, clamps};

// What a key starts from, and what it is multiplied by at each byte.
const START: u64 = 1469598103934665603;

const FACTOR: u64 = 1099511628211;

// What three bytes of 0 multiply a key by: the factor's third power, its low 64 bits.
const FACTOR_CUBED: u64 = 624165263380053675;

// 2^40: a word below it has 0 as its three highest bytes.
const FIVE_BYTES: u64 = 1099511627776;

// One byte taken into a key.
fn key_step(h: u64, b: u64) -> u64
    requires { b < 256 }
    ensures { result ≡ Points.key_step h b }
{
    wrapping_mul(h ^ b, FACTOR)
}

// The lowest bytes of a word taken into a key, so many of them, the lowest first.
fn key_bytes(start: u64, word: u64, count: usize) -> u64
    ensures { result ≡ Points.key_steps start (Points.little_endian count word) }
{
    let mut h = start;
    let mut w = word;
    for _ in 0..count {
        h = key_step(h, w % 256);
        w = w / 256;
    }
    h
}

// The eight bytes of a word taken into a key, the lowest first.
fn key_word(start: u64, word: u64) -> u64
    ensures { result ≡ Points.key_steps start (Points.little_endian 8 word) }
{
    key_bytes(start, word, 8)
}

// The same of a word whose three highest bytes are 0: they are one multiplication.
fn key_low(start: u64, word: u64) -> u64
    requires { word < 2 ^ 40 }
    ensures { result ≡ Points.key_steps start (Points.little_endian 8 word) }
{
    wrapping_mul(key_bytes(start, word, 5), FACTOR_CUBED)
}

// The key of a point: the eight bytes of each of its three cells taken in, x first. One test finds that all three are small and none is negative.
pub fn key_of(x: f32, y: f32, z: f32) -> u64
    ensures { result ≡ Points.key x y z }
{
    let cx = cell_bits(x);
    let cy = cell_bits(y);
    let cz = cell_bits(z);
    if cx / FIVE_BYTES + cy / FIVE_BYTES + cz / FIVE_BYTES == 0 {
        let hx = key_low(START, cx);
        let hy = key_low(hx, cy);
        return key_low(hy, cz);
    }
    let hx = key_word(START, cx);
    let hy = key_word(hx, cy);
    key_word(hy, cz)
}

// A key, and whether one of its three cells was clamped.
#[derive(Clone, Copy)]
pub struct KeyAnswer {
    pub value: u64,
    pub clamped: bool,
}

// The key of a point, and whether one of its cells was clamped.
pub fn key(x: f32, y: f32, z: f32) -> KeyAnswer
    ensures { result ≡ key_told x y z }
{
    KeyAnswer {
        value: key_of(x, y, z),
        clamped: clamps(x) | clamps(y) | clamps(z),
    }
}
