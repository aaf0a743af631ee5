// The splits of the body's triangles counted, one triangle after another.

ghost use Rattle.std.specs.Prelude.{◌≡◌, get_or};
ghost use Rattle.patch_geometry.specs.Geometry.{point_at};
ghost use Rattle.stitch_projection.specs.Projection.{edge_of};
ghost use Rattle.stitch_count.specs.Counting.{EdgeReady, SidesReady, sides_in};
ghost use Rattle.stitch_count.specs.ByFinder.{TriangleReady, TriangleDone, TriangleCounted, RowReady, RowCounted, BodyReady, BodyCounted};

use body_table_checks::too_many;
use slice_fill::fill;
use stitch_splits::{Finder, Sides, TriangleEdge};
use stitch_triangle::Tally;

// The edge between the vertices g and h.
fn edge_between(
    positions: &[f32],
    w: &[u64],
    v: usize,
    g: usize,
    h: usize,
    is_open: bool,
) -> TriangleEdge
    requires { EdgeReady positions.now v g h w.now }
    ensures { result ≡ record {
      edge = edge_of (point_at positions.now g) (point_at positions.now h);
      start = get_or
          w.now g 0;
      end = get_or w.now h 0;
      is_open = is_open;
    } }
{
    let p = patch_geometry::vertex(positions, 3 * g);
    let q = patch_geometry::vertex(positions, 3 * h);
    TriangleEdge {
        edge: stitch_projection::edge_of(p, q),
        start: w[g],
        end: w[h],
        is_open: is_open,
    }
}

// The sides of the triangle at index k.
fn sides_at(
    positions: &[f32],
    indices: &[u32],
    w: &[u64],
    v: usize,
    flags: usize,
    base: usize,
    k: usize,
) -> Sides
    requires { SidesReady positions.now indices.now v flags base k w.now }
    ensures { result ≡ sides_in positions.now indices.now v flags base k w.now }
{
    let o = w[flags + k] != 0;
    let p = w[flags + k + 1] != 0;
    let q = w[flags + k + 2] != 0;
    let a = stitch_gather::corner(indices, base, v, k);
    let b = stitch_gather::corner(indices, base, v, k + 1);
    let c = stitch_gather::corner(indices, base, v, k + 2);
    Sides {
        first: edge_between(positions, w, v, a, b, o),
        second: edge_between(positions, w, v, b, c, p),
        third: edge_between(positions, w, v, c, a, q),
    }
}

// The splits of the triangle at index k; one without an open edge has none.
pub fn find_splits(
    positions: &[f32],
    indices: &[u32],
    w: &mut [u64],
    f: Finder,
    n: usize,
    base: usize,
    k: usize,
) -> Tally
    requires { TriangleReady positions.now indices.now f n base k w.old }
    ensures { TriangleDone positions.now indices.now f base k w.old w.new result }
{
    let is_open = stitch_gather::any_set(w, f.flags + k);
    if is_open {
        let s = sides_at(positions, indices, w, f.v, f.flags, base, k);
        return stitch_triangle::split_triangle(positions, w, s, f);
    }
    Tally {
        found: 0,
        placed: 0,
    }
}

// The splits of a triangle with an open edge, whose flags are cleared if there is none: writing needn't look for them again.
fn count_open(
    positions: &[f32],
    indices: &[u32],
    w: &mut [u64],
    f: Finder,
    n: usize,
    base: usize,
    k: usize,
) -> Tally
    requires { TriangleReady positions.now indices.now f n base k w.old }
    ensures { TriangleCounted positions.now indices.now f base k w.old w.new result }
{
    let r = find_splits(positions, indices, w, f, n, base, k);
    if r.found == 0 {
        fill(w, f.flags + k, f.flags + k + 3, 0);
    }
    r
}

// The splits of the triangle at index k, if it has an open edge.
fn count_triangle(
    positions: &[f32],
    indices: &[u32],
    w: &mut [u64],
    f: Finder,
    n: usize,
    base: usize,
    k: usize,
) -> Tally
    requires { TriangleReady positions.now indices.now f n base k w.old }
    ensures { TriangleCounted positions.now indices.now f base k w.old w.new result }
{
    let is_open = stitch_gather::any_set(w, f.flags + k);
    if is_open {
        return count_open(positions, indices, w, f, n, base, k);
    }
    Tally {
        found: 0,
        placed: 0,
    }
}

// The splits of one row's triangles are counted, behind those before them, as long as the result isn't too large.
fn count_row(
    positions: &[f32],
    indices: &[u32],
    w: &mut [u64],
    f: Finder,
    n: usize,
    base: usize,
    vertices: usize,
    from: usize,
    to: usize,
    before: Tally,
) -> Tally
    requires { RowReady positions.now indices.now f n base vertices from to before w.old }
    ensures { RowCounted positions.now indices.now f base from to before w.old w.new result }
{
    let mut t = before;
    for k in (from..to).step_by(3) {
        if too_many(f.v + t.placed, n + 3 * t.placed) {
            return t;
        }
        let r = count_triangle(positions, indices, w, f, n, base, k);
        t = Tally {
            found: t.found + r.found,
            placed: t.placed + r.placed,
        };
    }
    t
}

// The splits of all rows, counted one after another.
fn count_rows(rows: &[u32], positions: &[f32], indices: &[u32], w: &mut [u64], f: Finder) -> Tally
    requires { BodyReady rows.now positions.now indices.now f w.old }
    ensures { BodyCounted rows.now positions.now indices.now f w.old w.new result }
{
    let n = indices.len();
    let m = body_rows::row_count(rows);
    let mut t = Tally {
        found: 0,
        placed: 0,
    };
    let mut base = 0usize;
    let mut i = 0usize;
    for k in 0..m {
        let vertices = body_rows::vertices(rows, k) as usize;
        let end = i + body_rows::indices(rows, k) as usize;
        t = count_row(positions, indices, w, f, n, base, vertices, i, end, t);
        base += vertices;
        i = end;
    }
    t
}

// The splits of all triangles, and how many new vertices they make; of a result that is too large only as many as show it. A body without a loose vertex has
// none.
pub fn count_splits(
    rows: &[u32],
    positions: &[f32],
    indices: &[u32],
    w: &mut [u64],
    f: Finder,
) -> Tally
    requires { BodyReady rows.now positions.now indices.now f w.old }
    ensures { BodyCounted rows.now positions.now indices.now f w.old w.new result }
{
    if f.count == 0 {
        return Tally {
            found: 0,
            placed: 0,
        };
    }
    count_rows(rows, positions, indices, w, f)
}
