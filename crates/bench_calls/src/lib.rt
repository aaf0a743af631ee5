// The three calls in a row, in lent slices and one work area, and what is printed of them.
#![tactic(auto)]

ghost use Rattle.refusals.specs.Numbers.{numbered};
ghost use Rattle.bench_call_texts.specs.Told.{Told};
ghost use Rattle.bench_call_texts.specs.Texts.{TurnSaid, bytes_in, finished_text, mesh_in, stitch_in};

use bench_stitch::stitch_next;
use patch_geometry::Aabb;
use refusals::Refusal;
use sheet_answer::write_refusal;
use turn::turn;
use turn_definition::TurnCounts;

// What is printed of turn's answer: the other two calls, on the turned body.
fn print_turned(
    given: Result<TurnCounts, Refusal>,
    rows: &[u32],
    positions: &[f32],
    normals: &[f32],
    indices: &[u32],
    sag: f64,
    reference: Aabb,
    materials: &[u64],
    default: u64,
    out_rows: &mut [u32],
    out_positions: &mut [f32],
    out_normals: &mut [f32],
    out_indices: &mut [u32],
    mesh_positions: &mut [f32],
    mesh_normals: &mut [f32],
    mesh_indices: &mut [u32],
    parts: &mut [u32],
    ranges: &mut [u32],
    failures: &mut [u64],
    work: &mut [u64],
    out: &mut [u8],
) -> usize
    ensures { TurnSaid rows.now positions.now sag reference materials.now default (numbered given) normals.now
        indices.now work.old
        (stitch_in out_rows.old out_positions.old out_normals.old out_indices.old)
        (mesh_in mesh_positions.old mesh_normals.old mesh_indices.old parts.old ranges.old
        failures.old) out.old out.new result }
{
    match given {
        Ok(t) => stitch_next(
            rows,
            positions,
            normals,
            indices,
            sag,
            reference,
            materials,
            default,
            t,
            out_rows,
            out_positions,
            out_normals,
            out_indices,
            mesh_positions,
            mesh_normals,
            mesh_indices,
            parts,
            ranges,
            failures,
            work,
            out,
        ),
        Err(refusal) => write_refusal(out, refusal.number()),
    }
}

// A body turned where it stands, stitched and assembled, and what is printed.
pub fn finish_body(
    rows: &[u32],
    positions: &[f32],
    normals: &mut [f32],
    indices: &mut [u32],
    sag: f64,
    reference: Aabb,
    materials: &[u64],
    default: u64,
    out_rows: &mut [u32],
    out_positions: &mut [f32],
    out_normals: &mut [f32],
    out_indices: &mut [u32],
    mesh_positions: &mut [f32],
    mesh_normals: &mut [f32],
    mesh_indices: &mut [u32],
    parts: &mut [u32],
    ranges: &mut [u32],
    failures: &mut [u64],
    work: &mut [u64],
    out: &mut [u8],
) -> usize
    ensures { Told (bytes_in
        (mesh_in mesh_positions.old mesh_normals.old mesh_indices.old parts.old ranges.old
        failures.old)) out.old
        (finished_text rows.now positions.now normals.old indices.old sag reference materials.now
        default (stitch_in out_rows.old out_positions.old out_normals.old out_indices.old)
        (mesh_in mesh_positions.old mesh_normals.old mesh_indices.old parts.old ranges.old
        failures.old) work.old) out.new result }
{
    let given = turn(rows, positions, normals, indices, work);
    print_turned(
        given,
        rows,
        positions,
        normals,
        indices,
        sag,
        reference,
        materials,
        default,
        out_rows,
        out_positions,
        out_normals,
        out_indices,
        mesh_positions,
        mesh_normals,
        mesh_indices,
        parts,
        ranges,
        failures,
        work,
        out,
    )
}
