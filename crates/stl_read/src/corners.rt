// The corners of a file's triangles, looked at and read; normals and last two bytes are passed over.

ghost use Rattle.std.specs.Prelude.{◌≡◌, ◌+◌, ◌*◌, ◌≤◌, drop, length};
ghost use Rattle.lists.specs.Lists.{any};
ghost use Rattle.float_steps.specs.Floats.{f32};
ghost use Rattle.body_patch_checks.specs.PatchTests.{not_finite};
ghost use Rattle.slice_append.specs.Appended.{Appended};
ghost use Rattle.stl_definition.specs.File.{corner_bytes, head_bytes, normal_bytes};
ghost use Rattle.stl_definition.specs.Read.{facet_corners};
ghost use Rattle.stl_definition.specs.StepLaws.{corners_at, point_at};
ghost use Rattle.stl_read.specs.Ready.{CornersReady, Holds};

use crate::words::word_at;
use float_steps::{f32_of_bits, is_finite_f32};
use stl_definition::{FACET_BYTES, HEAD_BYTES};

// A triangle's normal.
const NORMAL_BYTES: usize = 12;

// Whether the float with the bits w isn't finite.
fn not_finite(w: u32) -> bool
    ensures { result ≡ not_finite (f32 w) }
{
    !is_finite_f32(f32_of_bits(w))
}

// Whether a coordinate of the corner at p isn't finite.
fn point_not_finite(file: &[u8], p: usize) -> bool
    requires { p + normal_bytes ≤ length file.now }
    ensures { result ≡ any not_finite (point_at file.now p) }
{
    let x = not_finite(word_at(file, p));
    let y = not_finite(word_at(file, p + 4));
    let z = not_finite(word_at(file, p + 8));
    x | y | z
}

// Whether a coordinate of the three corners from p on isn't finite.
fn facet_not_finite(file: &[u8], p: usize) -> bool
    requires { p + corner_bytes ≤ length file.now }
    ensures { result ≡ any not_finite (corners_at file.now p) }
{
    let a = point_not_finite(file, p);
    let b = point_not_finite(file, p + 12);
    let c = point_not_finite(file, p + 24);
    a | b | c
}

// 74: whether a corner of a file's n triangles isn't finite. All are looked at, without a jump.
pub fn any_not_finite(file: &[u8], n: usize) -> bool
    requires { Holds file.now n }
    ensures { result ≡ any not_finite (facet_corners n (drop head_bytes file.now)) }
{
    let mut found = false;
    for t in 0..n {
        found = found | facet_not_finite(file, HEAD_BYTES + FACET_BYTES * t + NORMAL_BYTES);
    }
    found
}

// The corner at p is written to `positions` from place o on.
fn put_point(file: &[u8], p: usize, positions: &mut [f32], o: usize)
    requires normal_bytes_in_bounds { p + normal_bytes ≤ length file.now }
    requires o_in_bounds { o + 3 ≤ length positions.old }
    ensures { Appended o (point_at file.now p) positions.old positions.new }
{
    let x = f32_of_bits(word_at(file, p));
    let y = f32_of_bits(word_at(file, p + 4));
    let z = f32_of_bits(word_at(file, p + 8));
    positions[o] = x;
    positions[o + 1] = y;
    positions[o + 2] = z;
}

// The three corners from p on are written to `positions` from place o on.
fn put_facet(file: &[u8], p: usize, positions: &mut [f32], o: usize)
    requires corner_bytes_in_bounds { p + corner_bytes ≤ length file.now }
    requires o_in_bounds { o + 9 ≤ length positions.old }
    ensures { Appended o (corners_at file.now p) positions.old positions.new }
{
    put_point(file, p, positions, o);
    put_point(file, p + 12, positions, o + 3);
    put_point(file, p + 24, positions, o + 6);
}

// The corners of a file's n triangles are written to the front of `positions`.
pub fn put_corners(file: &[u8], n: usize, positions: &mut [f32])
    requires { CornersReady file.now n positions.old }
    ensures { Appended 0 (facet_corners n (drop head_bytes file.now)) positions.old positions.new }
{
    for t in 0..n {
        put_facet(
            file,
            HEAD_BYTES + FACET_BYTES * t + NORMAL_BYTES,
            positions,
            9 * t,
        );
    }
}
