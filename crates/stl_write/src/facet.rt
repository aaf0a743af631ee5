// The 50 bytes of a triangle: its normal, its corners and two bytes.

ghost use Rattle.std.specs.Prelude.{◌+◌, ◌*◌, ◌<◌, ◌≤◌, length, replicate};
ghost use Rattle.slice_append.specs.Appended.{Appended};
ghost use Rattle.stl_definition.specs.Bytes.{floats_bytes};
ghost use Rattle.stl_definition.specs.File.{corners, facet, facet_bytes, head_bytes, last_bytes, normal_bytes, point_in, triangle_count};
ghost use Rattle.stl_definition.specs.StepLaws.{triangle_at};
ghost use Rattle.stl_write.specs.Ready.{Inside, Writable};

use crate::bytes::put_words;
use float_steps::bits_of_f32;
use stl_definition::{FACET_BYTES, HEAD_BYTES};

// The coordinates of vertex i are written to `out` from place o on.
fn put_corner(positions: &[f32], i: u32, out: &mut [u8], o: usize)
    requires i_in_bounds { 3 * i + 3 ≤ length positions.now }
    requires normal_bytes_in_bounds { o + normal_bytes ≤ length out.old }
    ensures { Appended o (floats_bytes (point_in 3 positions.now i)) out.old out.new }
{
    let k = 3 * i as usize;
    let x = bits_of_f32(positions[k]);
    let y = bits_of_f32(positions[k + 1]);
    let z = bits_of_f32(positions[k + 2]);
    put_words(out, o, x, y, z);
}

// The last two bytes, which are zero, are written to `out` from place o on.
fn put_last(out: &mut [u8], o: usize)
    requires { o + last_bytes ≤ length out.old }
    ensures { Appended o (replicate last_bytes 0) out.old out.new }
{
    out[o] = 0;
    out[o + 1] = 0;
}

// A triangle with the corners a, b and c is written to `out` from place o on; its normal is zero.
fn put_facet(positions: &[f32], a: u32, b: u32, c: u32, out: &mut [u8], o: usize)
    requires inside { Inside positions.now a b c }
    requires facet_bytes_in_bounds { o + facet_bytes ≤ length out.old }
    ensures { Appended o (facet (corners 3 positions.now (record { a = a; b = b; c = c }))) out.old out.new }
{
    put_words(out, o, 0, 0, 0);
    put_corner(positions, a, out, o + 12);
    put_corner(positions, b, out, o + 24);
    put_corner(positions, c, out, o + 36);
    put_last(out, o + 48);
}

// Triangle t is written to `out`, behind the head of the file and the triangles before it.
pub fn put_triangle(positions: &[f32], indices: &[u32], t: usize, out: &mut [u8])
    requires writable { Writable positions.now indices.now out.old }
    requires t_bound { t < triangle_count indices.now }
    ensures { Appended (head_bytes + facet_bytes * t) (facet (corners 3 positions.now (triangle_at indices.now t)))
        out.old out.new }
{
    let k = 3 * t;
    let o = HEAD_BYTES + FACET_BYTES * t;
    put_facet(
        positions,
        indices[k],
        indices[k + 1],
        indices[k + 2],
        out,
        o,
    );
}
