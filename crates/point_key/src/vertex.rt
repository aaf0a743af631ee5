// The vertices of a flat slice of positions, three numbers a vertex: their keys and their bits.
ghost use Rattle.std.specs.Prelude.{◌≡◌, ◌<◌, length, ◌==◌, slice_index, slice_index_or};
ghost use Rattle.point_rules.specs.Points as Points;
ghost use Rattle.point_rules.specs.Bits.{Bits32, bits_by, front_bits, digest};
ghost use Rattle.point_rules.specs.Rule.{names, VertexInside, Both};
ghost use Rattle.std.specs.Float.{nan};

use crate::key::key_of;
use crate::multiply::wrapping_mul;
use float_steps::bits_of_f32;

// Odd numbers by which the parts of a vertex's bits are multiplied for its digest.
const FRONT: u64 = 11400714819323198485;

const LAST: u64 = 2246822507;

// The key of vertex i.
pub fn key_at(positions: &[f32], i: usize) -> u64
    requires { VertexInside i positions.now }
    ensures { result ≡ slice_index (names Points.key positions.now) i }
{
    key_of(positions[3 * i], positions[3 * i + 1], positions[3 * i + 2])
}

// The bits of -0.0.
const MINUS_ZERO: u64 = 2147483648;

// The bits of number k; where the two zeros are joined, -0.0 has those of 0.0.
fn bits_at(positions: &[f32], k: usize, joined: bool) -> u64
    requires { k < length positions.now }
    ensures { Bits32 joined (slice_index_or positions.now k nan) result }
{
    let b = bits_of_f32(positions[k]) as u64;
    if !joined {
        return b;
    }
    if b == MINUS_ZERO {
        return 0;
    }
    b
}

// The bits of the first two numbers of vertex i, as one.
fn front_bits(positions: &[f32], i: usize, joined: bool) -> u64
    requires { VertexInside i positions.now }
    ensures { result ≡ front_bits joined positions.now i }
{
    let x = bits_at(positions, 3 * i, joined);
    let y = bits_at(positions, 3 * i + 1, joined);
    x * 4294967296 + y
}

// Whether the vertices i and j have the same bits, the two zeros joined or not.
pub fn same_bits(positions: &[f32], i: usize, j: usize, joined: bool) -> bool
    requires { Both i j positions.now }
    ensures { result ≡ (slice_index (names (bits_by joined) positions.now) i == slice_index (names (bits_by joined) positions.now) j) }
{
    let a = bits_at(positions, 3 * i + 2, joined);
    let b = bits_at(positions, 3 * j + 2, joined);
    if a != b {
        return false;
    }
    front_bits(positions, i, joined) == front_bits(positions, j, joined)
}

// A digest of the bits of vertex i, the two zeros joined or not.
pub fn digest_at(positions: &[f32], i: usize, joined: bool) -> u64
    requires { VertexInside i positions.now }
    ensures { result ≡ digest (slice_index (names (bits_by joined) positions.now) i) }
{
    let front = wrapping_mul(front_bits(positions, i, joined), FRONT);
    let last = bits_at(positions, 3 * i + 2, joined) * LAST;
    front.wrapping_add(last)
}
