// The last of the three calls, in lent slices, and what is printed of its answer.
#![tactic(auto)]

ghost use Rattle.std.specs.Prelude.{◌≡◌};
ghost use Rattle.refusals.specs.Numbers.{numbered};
ghost use Rattle.bench_call_texts.specs.Told.{Told};
ghost use Rattle.bench_call_texts.specs.Texts.{MeshSaid, assembled_text, bytes_in, mesh_in, sized_from, tallied_from};

use mesh_assemble::assemble;
use mesh_definition::MeshCounts;
use patch_geometry::Aabb;
use refusals::Refusal;
use sheet_answer::{write_answer, write_refusal};
use sheet_answer_text::{Sizes, Tallies};
use turn_definition::TurnCounts;

// How much assemble wrote.
fn sizes_of(c: MeshCounts) -> Sizes
    ensures { result ≡ sized_from c }
{
    Sizes {
        vertices: c.vertices,
        indices: c.indices,
        parts: c.parts,
        ranges: c.ranges,
        failures: c.failures,
    }
}

// What was counted; each accepted row has a range.
fn tallies_of(t: TurnCounts, splits: u64, c: MeshCounts) -> Tallies
    ensures { result ≡ tallied_from t splits c }
{
    Tallies {
        turned: u64::from(t.turned),
        against: t.against,
        split: splits,
        ok: u64::from(c.ranges),
        edges: c.edges,
        opens: c.opens,
        overs: c.overs,
        closed: c.closed,
    }
}

// What is printed of assemble's answer.
fn print_mesh(
    given: Result<MeshCounts, Refusal>,
    t: TurnCounts,
    splits: u64,
    positions: &[f32],
    normals: &[f32],
    indices: &[u32],
    parts: &[u32],
    ranges: &[u32],
    failures: &[u64],
    out: &mut [u8],
) -> usize
    ensures { MeshSaid t splits (numbered given) positions.now normals.now indices.now parts.now ranges.now
        failures.now out.old out.new result }
{
    match given {
        Ok(c) => write_answer(
            out,
            sizes_of(c),
            tallies_of(t, splits, c),
            positions,
            normals,
            indices,
            parts,
            ranges,
            failures,
        ),
        Err(refusal) => write_refusal(out, refusal.number()),
    }
}

// The last call, on the stitched body, and what is printed.
pub fn assemble_next(
    rows: &[u32],
    positions: &[f32],
    normals: &[f32],
    indices: &[u32],
    reference: Aabb,
    materials: &[u64],
    default: u64,
    t: TurnCounts,
    splits: u64,
    mesh_positions: &mut [f32],
    mesh_normals: &mut [f32],
    mesh_indices: &mut [u32],
    parts: &mut [u32],
    ranges: &mut [u32],
    failures: &mut [u64],
    work: &mut [u64],
    out: &mut [u8],
) -> usize
    ensures { Told (bytes_in
        (mesh_in mesh_positions.old mesh_normals.old mesh_indices.old parts.old ranges.old
        failures.old)) out.old
        (assembled_text rows.now positions.now normals.now indices.now reference materials.now default
        t splits ((mesh_in mesh_positions.old mesh_normals.old mesh_indices.old parts.old ranges.old
        failures.old) work.old)) out.new result }
{
    let given = assemble(
        rows,
        positions,
        normals,
        indices,
        reference,
        materials,
        default,
        mesh_positions,
        mesh_normals,
        mesh_indices,
        parts,
        ranges,
        failures,
        work,
    );
    print_mesh(
        given,
        t,
        splits,
        mesh_positions,
        mesh_normals,
        mesh_indices,
        parts,
        ranges,
        failures,
        out,
    )
}
