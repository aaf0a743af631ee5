// A line for every row of a slice that is printed: vertices, three numbers a line, ranges, failures; what passes the end of the slice is left off.
#![tactic(auto)]

ghost use Rattle.std.specs.Prelude.{◌≡◌, map, ◌≤◌, length};
ghost use Rattle.float_steps.specs.Floats.{bits32};
ghost use Rattle.sheet_digit_writing.specs.Writing.{Wrote};
ghost use Rattle.sheet_lines.specs.Forms.{line, vertex_form};
ghost use Rattle.sheet_lines.specs.Pattern.{pieces};
ghost use Rattle.sheet_answer_rows.specs.Rows.{corner_at, failure_at, failure_lines, four_at, range_form, range_lines, three_at, threes, vertex_lines};

use float_steps::bits_of_f32;
use mesh_acceptance::FAILURE_WIDTH;
use mesh_layout::RANGE_WIDTH;
use sheet_lines::put_line;

// The line of three numbers; answers the place after it.
fn put_three(out: &mut [u8], at: usize, form: &[u8], row: &[u32; 3]) -> usize
    requires { at ≤ length out.old }
    ensures { Wrote out.old at (line (pieces form.now) (three_at row.now 0)) out.new result }
{
    let [a, b, c] = row.map(u64::from);
    put_line(out, at, form, &[a, b, c])
}

// A line for every three numbers; answers the place after them.
pub fn put_threes(out: &mut [u8], at: usize, form: &[u8], values: &[u32]) -> usize
    requires { at ≤ length out.old }
    ensures { Wrote out.old at (threes (pieces form.now) values.now) out.new result }
{
    let (rows, _) = values.as_chunks::<3>();
    let mut next: usize = at;
    for row in rows {
        next = put_three(out, next, form, row);
    }
    next
}

// The bits of a float, as a number of 64 bits.
fn wide_bits(x: f32) -> u64
    ensures { result ≡ bits32 x }
{
    u64::from(bits_of_f32(x))
}

// The line of a vertex; answers the place after it.
fn put_vertex(out: &mut [u8], at: usize, position: &[f32; 3], normal: &[f32; 3]) -> usize
    requires { at ≤ length out.old }
    ensures { Wrote out.old at (line vertex_form (corner_at position.now normal.now 0)) out.new result }
{
    let [a, b, c] = position.map(wide_bits);
    let [d, e, f] = normal.map(wide_bits);
    put_line(out, at, b"(v (p***) (n***))", &[a, b, c, d, e, f])
}

// A line for every vertex; answers the place after them.
pub fn put_vertices(out: &mut [u8], at: usize, positions: &[f32], normals: &[f32]) -> usize
    requires { at ≤ length out.old }
    ensures { Wrote out.old at (vertex_lines (map bits32 positions.now) (map bits32 normals.now)) out.new result }
{
    let (points, _) = positions.as_chunks::<3>();
    let (directions, _) = normals.as_chunks::<3>();
    let mut next: usize = at;
    for (position, normal) in points.iter().zip(directions) {
        next = put_vertex(out, next, position, normal);
    }
    next
}

// The line of a range; answers the place after it.
fn put_range(out: &mut [u8], at: usize, range: &[u32; RANGE_WIDTH]) -> usize
    requires { at ≤ length out.old }
    ensures { Wrote out.old at (line range_form (four_at range.now 0)) out.new result }
{
    let [face, bin, first, past] = range.map(u64::from);
    put_line(out, at, b"(range####)", &[face, bin, first, past])
}

// A line for every range; answers the place after them.
pub fn put_ranges(out: &mut [u8], at: usize, ranges: &[u32]) -> usize
    requires { at ≤ length out.old }
    ensures { Wrote out.old at (range_lines ranges.now) out.new result }
{
    let (rows, _) = ranges.as_chunks::<RANGE_WIDTH>();
    let mut next: usize = at;
    for row in rows {
        next = put_range(out, next, row);
    }
    next
}

// The line of a failure; answers the place after it.
fn put_failure(out: &mut [u8], at: usize, failure: &[u64; FAILURE_WIDTH]) -> usize
    requires { at ≤ length out.old }
    ensures { Wrote out.old at (failure_at failure.now 0) out.new result }
{
    let [face, bin, n, reach, span] = *failure;
    match n {
        0 => put_line(out, at, b"(failed## (empty))", &[face, bin]),
        256 => put_line(out, at, b"(failed## (escape$$))", &[face, bin, reach, span]),
        _ => put_line(out, at, b"(failed## (upstream#))", &[face, bin, n]),
    }
}

// A line for every failure; answers the place after them.
pub fn put_failures(out: &mut [u8], at: usize, failures: &[u64]) -> usize
    requires { at ≤ length out.old }
    ensures { Wrote out.old at (failure_lines failures.now) out.new result }
{
    let (rows, _) = failures.as_chunks::<FAILURE_WIDTH>();
    let mut next: usize = at;
    for row in rows {
        next = put_failure(out, next, row);
    }
    next
}
