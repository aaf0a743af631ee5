// The corners of all triangles with an open edge, gathered row by row.

ghost use Rattle.std.specs.Prelude.{◌≡◌, ◌+◌, get_or};
ghost use Rattle.stitch_loose_points.specs.Listed.{any_set, FlagsAt, CornerAt};
ghost use Rattle.stitch_gather.specs.Standing.{TriangleStandable, TriangleStood};
ghost use Rattle.stitch_gather.specs.Gathering.{
  TriangleGatherable,
  TriangleGathered,
  RowGatherable,
  RowGathered,
  Gatherable,
  RowsGathered,
  Gathered,
};

use crate::stand::{STANDING, list_standing, stand};

// Whether one of the three flags from place k on is set.
pub fn any_set(w: &[u64], k: usize) -> bool
    requires { FlagsAt w.now k }
    ensures { result ≡ any_set (get_or w.now k 0) (get_or w.now (k + 1) 0) (get_or w.now (k + 2) 0) }
{
    (w[k] != 0) | (w[k + 1] != 0) | (w[k + 2] != 0)
}

// The corners a, b and c stand for their points, in this order; the answer is how many points are listed then.
fn stand_triangle(
    w: &mut [u64],
    v: usize,
    at: usize,
    count: usize,
    a: usize,
    b: usize,
    c: usize,
) -> usize
    requires { TriangleStandable v at count a b c w.old }
    ensures { TriangleStood v at count a b c w.old w.new result }
{
    let one = stand(w, v, at, count, a);
    let two = stand(w, v, at, one, b);
    stand(w, v, at, two, c)
}

// The vertex that index k is of, counted over the body: the row's vertices start at `base`.
pub fn corner(indices: &[u32], base: usize, v: usize, k: usize) -> usize
    requires { CornerAt indices.now base v k }
    ensures { result ≡ base + get_or indices.now k 0 }
{
    base + indices[k] as usize
}

// The corners of the triangle at index k, if one of its edges is open; the answer is how many points are listed then.
fn gather_triangle(
    indices: &[u32],
    w: &mut [u64],
    v: usize,
    at: usize,
    count: usize,
    base: usize,
    k: usize,
    flags: usize,
) -> usize
    requires { TriangleGatherable indices.now v at count base k flags w.old }
    ensures { TriangleGathered indices.now v at count base k flags w.old w.new result }
{
    let is_open = any_set(w, flags + k);
    if is_open {
        let a = corner(indices, base, v, k);
        let b = corner(indices, base, v, k + 1);
        let c = corner(indices, base, v, k + 2);
        return stand_triangle(w, v, at, count, a, b, c);
    }
    count
}

// The vertices of one row: its triangles' indices stand from `from` up to `to`, its own vertices from `base` on; the answer is how many points are
// listed then.
fn gather_row(
    indices: &[u32],
    w: &mut [u64],
    v: usize,
    at: usize,
    count: usize,
    base: usize,
    vertices: usize,
    from: usize,
    to: usize,
    flags: usize,
) -> usize
    requires { RowGatherable indices.now v at count base vertices from to flags w.old }
    ensures { RowGathered indices.now v at count base from to flags w.old w.new result }
{
    let mut found = count;
    for k in (from..to).step_by(3) {
        found = gather_triangle(indices, w, v, at, found, base, k, flags);
    }
    found
}

// The corners of the open triangles of all rows stand for their points; the flags of the uses stand from `flags` on. The answer is how many points are listed.
fn gather_rows(
    rows: &[u32],
    indices: &[u32],
    w: &mut [u64],
    v: usize,
    at: usize,
    flags: usize,
) -> usize
    requires { Gatherable rows.now indices.now v at flags w.old }
    ensures { RowsGathered rows.now indices.now v at flags w.old w.new result }
{
    let m = body_rows::row_count(rows);
    let mut found = 0usize;
    let mut base = 0usize;
    let mut i = 0usize;
    for k in 0..m {
        let vertices = body_rows::vertices(rows, k) as usize;
        let end = i + body_rows::indices(rows, k) as usize;
        found = gather_row(indices, w, v, at, found, base, vertices, i, end, flags);
        base += vertices;
        i = end;
    }
    found
}

// The loose vertices of all rows, listed from `at` on by name; the flags of the uses stand from `flags` on. The answer is how many there are.
pub fn gather_loose(
    rows: &[u32],
    indices: &[u32],
    w: &mut [u64],
    v: usize,
    at: usize,
    flags: usize,
) -> usize
    requires { Gatherable rows.now indices.now v at flags w.old }
    ensures { Gathered rows.now indices.now v at flags w.old w.new result }
{
    let ts = at + indices.len();
    slice_fill::fill(w, STANDING * v, STANDING * v + v, 0);
    let count = gather_rows(rows, indices, w, v, at, flags);
    list_standing(w, v, at, ts, count);
    slice_pairs::sort_pairs(w, at, ts, count);
    count
}
