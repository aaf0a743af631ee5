// The ranges of the mesh: where each accepted row's indices stand, in row order.

ghost use Rattle.std.specs.Prelude.{[], ◌∷◌, ◌+◌, ◌*◌, ◌≤◌, length};
ghost use Rattle.slice_append.specs.Appended.{Appended};
ghost use Rattle.mesh_layout.specs.Ranges.{RowRangeable, RowRanged, RangesWritable, RangesWritten};
ghost use Rattle.mesh_layout.specs.Mesh.{range_width};

use mesh_layout::RANGE_WIDTH;
use mesh_materials::{BinId, FaceId};

// Range r of the table: face, bin, first index, one past the last.
fn put_range(ranges: &mut [u32], r: usize, face: FaceId, bin: BinId, first: u32, end: u32)
    requires { range_width * r + range_width ≤ length ranges.old }
    ensures { Appended (range_width * r) (face.0 ∷ bin.0 ∷ first ∷ end ∷ []) ranges.old ranges.new }
{
    slice_append::put(ranges, RANGE_WIDTH * r, &[face.0, bin.0, first, end]);
}

// Row k's range, if its decision isn't 0, is written as range r of the table; the answer is how many there are then.
fn append_range(
    rows: &[u32],
    w: &[u64],
    at: usize,
    starts: usize,
    k: usize,
    ranges: &mut [u32],
    r: usize,
) -> usize
    requires { RowRangeable rows.now w.now at starts k ranges.old r }
    ensures { RowRanged rows.now w.now at starts k ranges.old ranges.new r result }
{
    if w[at + k] == 0 {
        return r;
    }
    let first = w[starts + k] as u32;
    put_range(
        ranges,
        r,
        FaceId(body_rows::face(rows, k)),
        BinId(body_rows::bin(rows, k)),
        first,
        first + body_rows::indices(rows, k),
    );
    r + 1
}

// The ranges of all accepted rows are written to the front of the table; decisions stand from `at` on, and where each row's indices begin from `starts` on.
// The answer is how many there are.
pub fn write_ranges(rows: &[u32], w: &[u64], at: usize, starts: usize, ranges: &mut [u32]) -> usize
    requires { RangesWritable rows.now w.now at starts ranges.old }
    ensures { RangesWritten rows.now w.now at starts ranges.old ranges.new result }
{
    let m = body_rows::row_count(rows);
    let mut r = 0usize;
    for k in 0..m {
        r = append_range(rows, w, at, starts, k, ranges, r);
    }
    r
}
