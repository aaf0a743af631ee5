// assemble: a body's accepted patches as one mesh, with parts, ranges, failures and edge counts.

ghost use Rattle.std.specs.Prelude.{◌≡◌, ◌+◌, ◌*◌, length};
ghost use Rattle.refusals.specs.Numbers.{numbered};
ghost use Rattle.body_checks.specs.Accepted.{Passed};
ghost use Rattle.mesh_definition.specs.Assemble.{assemble_of};
ghost use Rattle.mesh_definition.specs.Assembled.{slices_of, left_mesh, assemble_answered, assemble_accepted};

use body_checks::first_failing;
use mesh_accepted::assemble_rows;
use mesh_definition::MeshCounts;
use patch_geometry::Aabb;
use refusals::Refusal;

// An accepted body is assembled, and the words of the work area that it needs become 0.
fn assemble_accepted(
    rows: &[u32],
    positions: &[f32],
    normals: &[f32],
    indices: &[u32],
    reference: Aabb,
    materials: &[u64],
    default: u64,
    mesh_positions: &mut [f32],
    mesh_normals: &mut [f32],
    mesh_indices: &mut [u32],
    parts: &mut [u32],
    ranges: &mut [u32],
    failures: &mut [u64],
    work: &mut [u64],
) -> Result<MeshCounts, Refusal>
    requires { Passed rows.now positions.now normals.now indices.now (length work.old) }
    ensures { left_mesh (numbered result) (slices_of mesh_positions.new mesh_normals.new mesh_indices.new parts.new
        ranges.new failures.new work.new)
        ≡ assemble_answered (assemble_accepted rows.now positions.now normals.now indices.now reference
        materials.now default
        (slices_of mesh_positions.old mesh_normals.old mesh_indices.old parts.old ranges.old
        failures.old work.old)) }
{
    let m = body_rows::row_count(rows);
    let answer = assemble_rows(
        rows,
        positions,
        normals,
        indices,
        reference,
        materials,
        default,
        mesh_positions,
        mesh_normals,
        mesh_indices,
        parts,
        ranges,
        failures,
        work,
        m,
    );
    body_checks::clear_words(rows, work);
    answer
}

// The accepted patches of a body become one mesh: vertices in row order, indices in one run per material, a range per face; failures go to their table.
// A body that fails a check is refused with the first that it fails, and the mesh slices and tables keep their content.
pub fn assemble(
    rows: &[u32],
    positions: &[f32],
    normals: &[f32],
    indices: &[u32],
    reference: Aabb,
    materials: &[u64],
    default: u64,
    mesh_positions: &mut [f32],
    mesh_normals: &mut [f32],
    mesh_indices: &mut [u32],
    parts: &mut [u32],
    ranges: &mut [u32],
    failures: &mut [u64],
    work: &mut [u64],
) -> Result<MeshCounts, Refusal>
    ensures { left_mesh (numbered result) (slices_of mesh_positions.new mesh_normals.new mesh_indices.new parts.new
        ranges.new failures.new work.new)
        ≡ assemble_answered (assemble_of rows.now positions.now normals.now indices.now reference
        materials.now default
        (slices_of mesh_positions.old mesh_normals.old mesh_indices.old parts.old ranges.old
        failures.old work.old)) }
{
    first_failing(rows, positions, normals, indices, work.len())?;
    assemble_accepted(
        rows,
        positions,
        normals,
        indices,
        reference,
        materials,
        default,
        mesh_positions,
        mesh_normals,
        mesh_indices,
        parts,
        ranges,
        failures,
        work,
    )
}
