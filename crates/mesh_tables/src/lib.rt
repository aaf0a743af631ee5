// The runs, parts, ranges and failures of the accepted rows written to the lent slices.
#![tactic(auto)]

ghost use Rattle.mesh_tables.specs.Tables.{TablesReady, TablesWritten};

use patch_geometry::Aabb;

// How many parts, ranges and failures were written.
#[derive(Clone, Copy)]
pub struct Tables {
    pub parts: usize,
    pub ranges: usize,
    pub failures: usize,
}

// The accepted rows' runs, the parts, the ranges and the failures are written; decisions stand at the front of the work area.
pub fn write_tables(
    rows: &[u32],
    positions: &[f32],
    indices: &[u32],
    reference: Aabb,
    w: &mut [u64],
    m: usize,
    mesh_indices: &mut [u32],
    parts: &mut [u32],
    ranges: &mut [u32],
    failures: &mut [u64],
) -> Tables
    requires { TablesReady rows.now positions.now indices.now reference w.old m mesh_indices.old parts.old ranges.old failures.old }
    ensures { TablesWritten rows.now positions.now indices.now reference w.old w.new m
        mesh_indices.old mesh_indices.new parts.old parts.new ranges.old ranges.new
        failures.old failures.new result }
{
    let p = mesh_runs::write_runs(rows, indices, w, 0, m, mesh_indices, parts);
    let r = mesh_rows::write_ranges(rows, w, 0, m, ranges);
    let f = mesh_failures::write_failures(rows, positions, indices, reference, w, 0, failures);
    Tables {
        parts: p,
        ranges: r,
        failures: f,
    }
}
