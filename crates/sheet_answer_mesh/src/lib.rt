// The mesh as text, written at a place of a slice.
#![tactic(auto)]

ghost use Rattle.std.specs.Prelude.{◌≤◌, length};
ghost use Rattle.sheet_digit_writing.specs.Writing.{Wrote};
ghost use Rattle.sheet_answer_text.specs.Answer.{mesh_text};

use mesh_acceptance::FAILURE_WIDTH;
use mesh_layout::{PART_WIDTH, RANGE_WIDTH};
use sheet_answer_rows::{put_failures, put_ranges, put_threes, put_vertices};
use sheet_answer_text::Sizes;
use sheet_lines::put_line;
use slice_front::front;

// The mesh; answers the place after it.
pub fn put_mesh(
    out: &mut [u8],
    at: usize,
    z: Sizes,
    positions: &[f32],
    normals: &[f32],
    indices: &[u32],
    parts: &[u32],
    ranges: &[u32],
    failures: &[u64],
) -> usize
    requires { at ≤ length out.old }
    ensures { Wrote out.old at (mesh_text z positions.now normals.now indices.now parts.now
        ranges.now failures.now) out.new result }
{
    let n = 3 * z.vertices as usize;
    let vertices = u64::from(z.vertices);
    let corners = u64::from(z.indices);
    let a = put_line(out, at, b"(mesh##)", &[vertices, corners]);
    let b = put_vertices(out, a, front(positions, n), front(normals, n));
    let c = put_threes(
        out,
        b,
        b"(part###)",
        front(parts, PART_WIDTH * z.parts as usize),
    );
    let d = put_threes(out, c, b"(t###)", front(indices, z.indices as usize));
    let e = put_ranges(out, d, front(ranges, RANGE_WIDTH * z.ranges as usize));
    put_failures(out, e, front(failures, FAILURE_WIDTH * z.failures as usize))
}
