// A body that passed its checks assembled: decisions, totals, and the mesh written or refused.
#![tactic(auto)]

ghost use Rattle.refusals.specs.Numbers.{numbered};
ghost use Rattle.mesh_accepted.specs.Rows.{AssembleReady, BodyAssembled};

use mesh_definition::MeshCounts;
use mesh_room::too_short;
use mesh_write::write_mesh;
use patch_geometry::Aabb;
use refusals::Refusal;

// A body of m rows that passed its checks is assembled if it passes 42 and 41: materials of 32 bits, and room.
pub fn assemble_rows(
    rows: &[u32],
    positions: &[f32],
    normals: &[f32],
    indices: &[u32],
    reference: Aabb,
    materials: &[u64],
    default: u64,
    mesh_positions: &mut [f32],
    mesh_normals: &mut [f32],
    mesh_indices: &mut [u32],
    parts: &mut [u32],
    ranges: &mut [u32],
    failures: &mut [u64],
    w: &mut [u64],
    m: usize,
) -> Result<MeshCounts, Refusal>
    requires { AssembleReady rows.now positions.now normals.now indices.now w.old m }
    ensures { BodyAssembled rows.now positions.now normals.now indices.now reference
        materials.now default
        mesh_positions.old mesh_positions.new mesh_normals.old mesh_normals.new mesh_indices.old
        mesh_indices.new
        parts.old parts.new ranges.old ranges.new failures.old failures.new w.old
        w.new (numbered result) }
{
    if mesh_materials::bad_materials(materials, default) {
        return Err(Refusal::Material);
    }
    mesh_judge::judge_rows(rows, positions, indices, reference, materials, default, w);
    let t = mesh_judge::accepted_totals(rows, w, 0);
    if too_short(
        t.vertices,
        t.indices,
        m,
        mesh_positions,
        mesh_normals,
        mesh_indices,
        parts,
        ranges,
        failures,
    ) {
        return Err(Refusal::Mesh);
    }
    Ok(write_mesh(
        rows,
        positions,
        normals,
        indices,
        reference,
        w,
        m,
        t,
        mesh_positions,
        mesh_normals,
        mesh_indices,
        parts,
        ranges,
        failures,
    ))
}
