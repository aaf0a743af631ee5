// The parts of the mesh: one run of indices for each material, ascending.

ghost use Rattle.std.specs.Prelude.{[], ◌∷◌, ◌+◌, ◌*◌, ◌≤◌, length};
ghost use Rattle.slice_append.specs.Appended.{Appended};
ghost use Rattle.mesh_layout.specs.Parts.{RunsWritable, RunsWritten};
ghost use Rattle.mesh_layout.specs.Mesh.{part_width};

use crate::runs::write_run;
use mesh_layout::PART_WIDTH;
use mesh_material_order::{ROWS, first_accepted, order_rows};
use mesh_materials::MaterialId;

// Part p of the table: material, start, count.
fn put_part(parts: &mut [u32], p: usize, material: MaterialId, start: u32, count: u32)
    requires { part_width * p + part_width ≤ length parts.old }
    ensures { Appended (part_width * p) (material.0 ∷ start ∷ count ∷ []) parts.old parts.new }
{
    slice_append::put(parts, PART_WIDTH * p, &[material.0, start, count]);
}

// The runs of all materials are written to the front of `out`, their parts to the front of the table, and where each row's indices begin from `starts` on.
// The answer is how many parts there are.
pub fn write_runs(
    rows: &[u32],
    indices: &[u32],
    w: &mut [u64],
    at: usize,
    starts: usize,
    out: &mut [u32],
    parts: &mut [u32],
) -> usize
    requires { RunsWritable rows.now indices.now w.old at starts out.old parts.old }
    ensures { RunsWritten rows.now indices.now w.old w.new at starts out.old out.new
        parts.old parts.new result }
{
    let m = body_rows::row_count(rows);
    let order = starts + m;
    order_rows(rows, w, at, starts, order, m);
    let mut o = 0usize;
    let mut p = 0usize;
    let mut q = first_accepted(w, order, m);
    while q < m {
        let d = w[order + q] / ROWS;
        let run = write_run(rows, indices, w, at, starts, order, m, q, d, out, o);
        put_part(
            parts,
            p,
            MaterialId((d - 1) as u32),
            o as u32,
            (run.end - o) as u32,
        );
        o = run.end;
        q = run.place;
        p += 1;
    }
    p
}
