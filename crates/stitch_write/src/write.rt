// The stitched body written to the second slices.

ghost use Rattle.stitch_write.specs.ByFinder.{TriangleWritable, TriangleWritten, RowWritable, RowWritten, BodyWritable, BodyWritten};

use crate::table::put_counts;
use slice_append::put;
use stitch_count::find_splits;
use stitch_splits::Finder;
use stitch_triangle::Tally;

// Where the written vertices and indices end.
#[derive(Clone, Copy)]
pub struct Ends {
    pub vertices: usize,
    pub indices: usize,
}

// The new vertices and the fan of the triangle at index k are written behind the ends `before`; the first of the vertices has the number `next` in its patch.
fn write_triangle(
    positions: &[f32],
    normals: &[f32],
    indices: &[u32],
    w: &mut [u64],
    f: Finder,
    n: usize,
    base: usize,
    k: usize,
    next: usize,
    out_positions: &mut [f32],
    out_normals: &mut [f32],
    out_indices: &mut [u32],
    before: Ends,
) -> Ends
    requires { TriangleWritable positions.now normals.now indices.now f n base k next before
        w.old out_positions.old out_normals.old out_indices.old }
    ensures { TriangleWritten positions.now normals.now indices.now f base k next before
        w.old w.new out_positions.old out_positions.new out_normals.old out_normals.new
        out_indices.old out_indices.new result }
{
    let a = stitch_gather::corner(indices, base, f.v, k);
    let b = stitch_gather::corner(indices, base, f.v, k + 1);
    let c = stitch_gather::corner(indices, base, f.v, k + 2);
    let r: Tally = find_splits(positions, indices, w, f, n, base, k);
    let kept = r.placed;
    stitch_ring_vertices::append_positions(
        positions,
        w,
        f.at,
        f.ts,
        kept,
        out_positions,
        3 * before.vertices,
    );
    stitch_ring_vertices::append_normals(
        normals,
        a,
        b,
        c,
        w,
        f.at,
        f.ts,
        kept,
        out_normals,
        3 * before.vertices,
    );
    let end = stitch_fans::append_fan(
        w,
        f.at,
        f.ts,
        kept,
        indices[k],
        indices[k + 1],
        indices[k + 2],
        next,
        out_indices,
        before.indices,
    );
    Ends {
        vertices: before.vertices + kept,
        indices: end,
    }
}

// One row is written behind the ends `before`: its own vertices, then the new ones, and its indices.
fn write_row(
    positions: &[f32],
    normals: &[f32],
    indices: &[u32],
    w: &mut [u64],
    f: Finder,
    n: usize,
    base: usize,
    vertices: usize,
    from: usize,
    to: usize,
    out_positions: &mut [f32],
    out_normals: &mut [f32],
    out_indices: &mut [u32],
    before: Ends,
) -> Ends
    requires { RowWritable positions.now normals.now indices.now f n base vertices from to before
        w.old out_positions.old out_normals.old out_indices.old }
    ensures { RowWritten positions.now normals.now indices.now f base vertices from to before
        w.old w.new out_positions.old out_positions.new out_normals.old out_normals.new
        out_indices.old out_indices.new result }
{
    let first = 3 * base;
    let last = 3 * (base + vertices);
    put(out_positions, 3 * before.vertices, &positions[first..last]);
    put(out_normals, 3 * before.vertices, &normals[first..last]);
    let mut ends = Ends {
        vertices: before.vertices + vertices,
        indices: before.indices,
    };
    for k in (from..to).step_by(3) {
        let next = ends.vertices - before.vertices;
        ends = write_triangle(
            positions,
            normals,
            indices,
            w,
            f,
            n,
            base,
            k,
            next,
            out_positions,
            out_normals,
            out_indices,
            ends,
        );
    }
    ends
}

// All rows are written, and the table of their new counts.
pub fn write_body(
    rows: &[u32],
    positions: &[f32],
    normals: &[f32],
    indices: &[u32],
    w: &mut [u64],
    f: Finder,
    out_rows: &mut [u32],
    out_positions: &mut [f32],
    out_normals: &mut [f32],
    out_indices: &mut [u32],
)
    requires { BodyWritable rows.now positions.now normals.now indices.now f
        w.old out_rows.old out_positions.old out_normals.old out_indices.old }
    ensures { BodyWritten rows.now positions.now normals.now indices.now f
        w.old w.new out_rows.old out_rows.new out_positions.old out_positions.new
        out_normals.old out_normals.new out_indices.old out_indices.new }
{
    let n = indices.len();
    let m = body_rows::row_count(rows);
    let mut ends = Ends {
        vertices: 0,
        indices: 0,
    };
    let mut base = 0usize;
    let mut i = 0usize;
    for k in 0..m {
        let vertices = body_rows::vertices(rows, k) as usize;
        let end = i + body_rows::indices(rows, k) as usize;
        let r = write_row(
            positions,
            normals,
            indices,
            w,
            f,
            n,
            base,
            vertices,
            i,
            end,
            out_positions,
            out_normals,
            out_indices,
            ends,
        );
        let more_vertices = (r.vertices - ends.vertices) as u32;
        let more_indices = (r.indices - ends.indices) as u32;
        put_counts(rows, k, more_vertices, more_indices, out_rows);
        ends = r;
        base += vertices;
        i = end;
    }
}
