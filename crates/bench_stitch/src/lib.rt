// The second call, in lent slices, then the last, and what is printed of them.
#![tactic(auto)]

ghost use Rattle.refusals.specs.Numbers.{numbered};
ghost use Rattle.bench_call_texts.specs.Told.{Told};
ghost use Rattle.bench_call_texts.specs.Texts.{StitchSaid, bytes_in, mesh_in, stitch_in, stitched_text};

use bench_assemble::assemble_next;
use patch_geometry::Aabb;
use refusals::Refusal;
use sheet_answer::write_refusal;
use slice_front::front;
use stitch::stitch;
use stitch_definition::Sizes;
use turn_definition::TurnCounts;

// What is printed of stitch's answer: the last call, on the stitched body of as many rows.
fn print_stitched(
    given: Result<Sizes, Refusal>,
    rows: &[u32],
    out_rows: &[u32],
    out_positions: &[f32],
    out_normals: &[f32],
    out_indices: &[u32],
    reference: Aabb,
    materials: &[u64],
    default: u64,
    t: TurnCounts,
    mesh_positions: &mut [f32],
    mesh_normals: &mut [f32],
    mesh_indices: &mut [u32],
    parts: &mut [u32],
    ranges: &mut [u32],
    failures: &mut [u64],
    work: &mut [u64],
    out: &mut [u8],
) -> usize
    ensures { StitchSaid rows.now reference materials.now default t (numbered given) out_rows.now out_positions.now
        out_normals.now out_indices.now work.old
        (mesh_in mesh_positions.old mesh_normals.old mesh_indices.old parts.old ranges.old
        failures.old) out.old out.new result }
{
    match given {
        Ok(z) => assemble_next(
            front(out_rows, rows.len()),
            front(out_positions, 3 * z.vertices as usize),
            front(out_normals, 3 * z.vertices as usize),
            front(out_indices, z.indices as usize),
            reference,
            materials,
            default,
            t,
            z.splits,
            mesh_positions,
            mesh_normals,
            mesh_indices,
            parts,
            ranges,
            failures,
            work,
            out,
        ),
        Err(refusal) => write_refusal(out, refusal.number()),
    }
}

// The second call, on the turned body, then the last, and what is printed.
pub fn stitch_next(
    rows: &[u32],
    positions: &[f32],
    normals: &[f32],
    indices: &[u32],
    sag: f64,
    reference: Aabb,
    materials: &[u64],
    default: u64,
    t: TurnCounts,
    out_rows: &mut [u32],
    out_positions: &mut [f32],
    out_normals: &mut [f32],
    out_indices: &mut [u32],
    mesh_positions: &mut [f32],
    mesh_normals: &mut [f32],
    mesh_indices: &mut [u32],
    parts: &mut [u32],
    ranges: &mut [u32],
    failures: &mut [u64],
    work: &mut [u64],
    out: &mut [u8],
) -> usize
    ensures { Told (bytes_in
        (mesh_in mesh_positions.old mesh_normals.old mesh_indices.old parts.old ranges.old
        failures.old)) out.old
        (stitched_text rows.now positions.now normals.now indices.now sag reference materials.now
        default t (stitch_in out_rows.old out_positions.old out_normals.old out_indices.old)
        (mesh_in mesh_positions.old mesh_normals.old mesh_indices.old parts.old ranges.old
        failures.old) work.old) out.new result }
{
    let given = stitch(
        rows,
        positions,
        normals,
        indices,
        sag,
        out_rows,
        out_positions,
        out_normals,
        out_indices,
        work,
    );
    print_stitched(
        given,
        rows,
        out_rows,
        out_positions,
        out_normals,
        out_indices,
        reference,
        materials,
        default,
        t,
        mesh_positions,
        mesh_normals,
        mesh_indices,
        parts,
        ranges,
        failures,
        work,
        out,
    )
}
