// All that the program prints, written into a lent slice; what passes its end is left off.
#![tactic(auto)]

ghost use Rattle.std.specs.Prelude.{◌++◌};
ghost use Rattle.sheet_answer_text.specs.Answer.{Written, count_text, mesh_text, refusal_line};

use sheet_answer_mesh::put_mesh;
use sheet_answer_text::{Sizes, Tallies, put_count, put_counts};

// The mesh and the counts, cut off where `out` ends; answers how many bytes were written.
pub fn write_answer(
    out: &mut [u8],
    z: Sizes,
    t: Tallies,
    positions: &[f32],
    normals: &[f32],
    indices: &[u32],
    parts: &[u32],
    ranges: &[u32],
    failures: &[u64],
) -> usize
    ensures { Written out.old (mesh_text z positions.now normals.now indices.now parts.now
        ranges.now failures.now ++ count_text t) out.new result }
{
    let next = put_mesh(
        out, 0, z, positions, normals, indices, parts, ranges, failures,
    );
    put_counts(out, next, t)
}

// The line of a refusal, cut off where `out` ends; answers how many bytes were written.
pub fn write_refusal(out: &mut [u8], n: u32) -> usize
    ensures { Written out.old (refusal_line n) out.new result }
{
    put_count(out, 0, b"(refused#)", n as u64)
}
