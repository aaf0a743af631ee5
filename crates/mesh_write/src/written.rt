// The mesh of the accepted rows written to the lent slices.

ghost use Rattle.mesh_write.specs.Written.{CountReady, Counted, WriteReady, MeshWritten};

use mesh_definition::MeshCounts;
use mesh_judge::Totals;
use patch_geometry::Aabb;

// The edges of the mesh that stands at the front of the slices are counted, and whether it is closed is told.
fn count_mesh(
    mesh_positions: &[f32],
    mesh_indices: &[u32],
    w: &mut [u64],
    vertices: usize,
    indices: usize,
) -> mesh_edges::MeshEdges
    requires { CountReady mesh_positions.now mesh_indices.now w.old vertices indices }
    ensures { Counted mesh_positions.now mesh_indices.now w.old w.new vertices indices result }
{
    let end = 3 * vertices;
    mesh_edges::count_mesh(
        &mesh_positions[..end],
        &mesh_indices[..indices],
        w,
        vertices,
    )
}

// The mesh of the accepted rows is written, its tables and failures too, and its edges are counted; decisions stand at the front of the work area.
pub fn write_mesh(
    rows: &[u32],
    positions: &[f32],
    normals: &[f32],
    indices: &[u32],
    reference: Aabb,
    w: &mut [u64],
    m: usize,
    t: Totals,
    mesh_positions: &mut [f32],
    mesh_normals: &mut [f32],
    mesh_indices: &mut [u32],
    parts: &mut [u32],
    ranges: &mut [u32],
    failures: &mut [u64],
) -> MeshCounts
    requires { WriteReady rows.now positions.now normals.now indices.now reference w.old m t mesh_positions.old mesh_normals.old
        mesh_indices.old parts.old ranges.old failures.old }
    ensures { MeshWritten rows.now positions.now normals.now indices.now reference w.old
        w.new m t
        mesh_positions.old mesh_positions.new mesh_normals.old mesh_normals.new mesh_indices.old
        mesh_indices.new
        parts.old parts.new ranges.old ranges.new failures.old failures.new result }
{
    mesh_rows::write_vertices(rows, positions, w, 0, mesh_positions);
    mesh_rows::write_vertices(rows, normals, w, 0, mesh_normals);
    let b = mesh_tables::write_tables(
        rows,
        positions,
        indices,
        reference,
        w,
        m,
        mesh_indices,
        parts,
        ranges,
        failures,
    );
    let c = count_mesh(mesh_positions, mesh_indices, w, t.vertices, t.indices);
    MeshCounts {
        vertices: t.vertices as u32,
        indices: t.indices as u32,
        parts: b.parts as u32,
        ranges: b.ranges as u32,
        failures: b.failures as u32,
        edges: c.counts.edges,
        opens: c.counts.opens,
        overs: c.counts.overs,
        closed: c.closed,
    }
}
