// The positions and normals of the new vertices.

ghost use Rattle.std.specs.Prelude.{◌≡◌, [], ◌∷◌, ◌+◌, ◌%◌, ◌<◌, ◌≤◌, length, get_or};
ghost use Rattle.std.proofs.lemmas.List.Edits.{sets};
ghost use Rattle.patch_geometry.specs.Geometry.{point_at};
ghost use Rattle.patch_measures.specs.Volume.{Corners};
ghost use Rattle.stitch_projection.specs.Projection.{mixed};
ghost use Rattle.stitch_normals.specs.Answers.{normal_of};
ghost use Rattle.stitch_splits.specs.Entries.{entries_in};
ghost use Rattle.stitch_rings.specs.Rings.{coordinates_at, start_of, end_of, new_positions, new_normals};
ghost use Rattle.slice_append.specs.Appended.{Appended};
ghost use Rattle.stitch_rings.specs.Added.{VerticesReady, NormalsReady};
ghost use Rattle.stitch_ring_vertices.specs.VertexSteps.{PointReady};

use patch_geometry::vertex;
use stitch_entries::{entry_edge, entry_parameter};
use stitch_normals::{Normal, mixed_normal};
use stitch_splits::EDGE_STEP;

// The vertex of the entry at place j.
fn entry_vertex(w: &[u64], at: usize, j: usize) -> usize
    requires { at + j < length w.now }
    ensures { result ≡ get_or w.now (at + j) 0 % 262144 }
{
    (w[at + j] % EDGE_STEP) as usize
}

// The numbers x, y, z are written from place k on.
fn put_three(out: &mut [f32], k: usize, x: f32, y: f32, z: f32)
    requires { k + 3 ≤ length out.old }
    ensures { out.new ≡ sets out.old k (x ∷ y ∷ z ∷ []) }
{
    out[k] = x;
    out[k + 1] = y;
    out[k + 2] = z;
}

// The coordinates of vertex g are written from place k on.
fn copy_point(positions: &[f32], g: usize, out: &mut [f32], k: usize)
    requires { PointReady positions.now g k out.old }
    ensures { out.new ≡ sets out.old k (coordinates_at positions.now g) }
{
    let x = positions[3 * g];
    let y = positions[3 * g + 1];
    let z = positions[3 * g + 2];
    put_three(out, k, x, y, z);
}

// The positions of the vertices of `kept` entries are written from place o on.
pub fn append_positions(
    positions: &[f32],
    w: &[u64],
    at: usize,
    ts: usize,
    kept: usize,
    out: &mut [f32],
    o: usize,
)
    requires { VerticesReady positions.now w.now at ts kept o out.old }
    ensures { Appended o (new_positions positions.now (entries_in w.now at ts kept)) out.old out.new }
{
    for j in 0..kept {
        let g = entry_vertex(w, at, j);
        copy_point(positions, g, out, o + 3 * j);
    }
}

// The corner from which edge e runs, of the corners a, b, c.
fn start_of(a: usize, b: usize, c: usize, e: u64) -> usize
    ensures { result ≡ start_of a b c e }
{
    match e {
        0 => a,
        1 => b,
        _ => c,
    }
}

// The normal at parameter t of edge e, mixed from those of its ends.
fn edge_normal(normals: &[f32], a: usize, b: usize, c: usize, e: u64, t: f64) -> Normal
    requires { Corners normals.now a b c }
    ensures { normal_of result ≡ mixed (point_at normals.now (start_of a b c e)) (point_at normals.now (end_of a b c e)) t }
{
    let p = start_of(a, b, c, e);
    let q = start_of(b, c, a, e);
    let na = vertex(normals, 3 * p);
    let nb = vertex(normals, 3 * q);
    mixed_normal(na, nb, t)
}

// The mixed normals of `kept` entries on the edges of the triangle of vertices a, b, c are written from place o on.
pub fn append_normals(
    normals: &[f32],
    a: usize,
    b: usize,
    c: usize,
    w: &[u64],
    at: usize,
    ts: usize,
    kept: usize,
    out: &mut [f32],
    o: usize,
)
    requires { NormalsReady normals.now a b c w.now at ts kept o out.old }
    ensures { Appended o (new_normals normals.now a b c (entries_in w.now at ts kept)) out.old out.new }
{
    for j in 0..kept {
        let e = entry_edge(w, at, j);
        let t = entry_parameter(w, ts, j);
        let n = edge_normal(normals, a, b, c, e, t);
        put_three(out, o + 3 * j, n.x, n.y, n.z);
    }
}
