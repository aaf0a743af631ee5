// The accepted patches of a body as one mesh, with its tables, failures and edge counts.

ghost use Rattle.std.specs.Prelude.{◌≡◌};
ghost use Rattle.mesh_definition.specs.Assemble.{assemble_of};
ghost use Rattle.mesh_definition.specs.Assembled.{slices_of};
ghost use Rattle.cad_answers.specs.Answers.{box_of};
ghost use Rattle.cad_answers.specs.Assembling.{cad_left_mesh, cad_mesh_answered};

use cad_answers::{CadAssembled, box_of};

// The mesh goes to the mesh slices, parts go to a table of three numbers a row, ranges to one of four, failures to one of five words a row.
// An entry of materials is 0 for none or 1 + the material of the face; the work area needs 16 words an index and a row and 4 a vertex, which come back zero.
#[unsafe(no_mangle)]
pub extern "C" fn cad_assemble(
    rows: &[u32],
    positions: &[f32],
    normals: &[f32],
    indices: &[u32],
    x0: f64,
    y0: f64,
    z0: f64,
    x1: f64,
    y1: f64,
    z1: f64,
    materials: &[u64],
    default: u64,
    mesh_positions: &mut [f32],
    mesh_normals: &mut [f32],
    mesh_indices: &mut [u32],
    parts: &mut [u32],
    ranges: &mut [u32],
    failures: &mut [u64],
    work: &mut [u64],
) -> CadAssembled
    ensures { cad_left_mesh result (slices_of mesh_positions.new mesh_normals.new mesh_indices.new parts.new
        ranges.new failures.new work.new)
        ≡ cad_mesh_answered (assemble_of rows.now positions.now normals.now indices.now (box_of x0 y0 z0 x1 y1 z1)
        materials.now default
        (slices_of mesh_positions.old mesh_normals.old mesh_indices.old parts.old ranges.old
        failures.old work.old)) }
{
    let reference = box_of(x0, y0, z0, x1, y1, z1);
    mesh_assemble::assemble(
        rows,
        positions,
        normals,
        indices,
        reference,
        materials,
        default,
        mesh_positions,
        mesh_normals,
        mesh_indices,
        parts,
        ranges,
        failures,
        work,
    )
    .into()
}
