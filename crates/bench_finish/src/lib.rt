// A sheet that was read, finished: its body turned, stitched and assembled in lent slices, and what the program prints written into one.
#![tactic(auto)]

ghost use Rattle.std.specs.Prelude.{◌≡◌, ◌+◌, length, take};
ghost use Rattle.sheet_reader_state.specs.Limits.{Limited};
ghost use Rattle.sheet_reader_state.specs.Slices.{lent, patterns_of};
ghost use Rattle.sheet_meaning.specs.Meaning.{meant};
ghost use Rattle.bench_call_texts.specs.Told.{Told};
ghost use Rattle.bench_call_texts.specs.Texts.{bytes_in, mesh_in, stitch_in};
ghost use Rattle.bench_finish.specs.Answer.{BodyRoom, answer_with, body_text};
ghost use Rattle.bench_finish.specs.Fronts.{FrontsSaid};

use bench_calls::finish_body;
use body_rows::ROW_WIDTH;
use patch_geometry::Aabb;
use sheet_answer::write_refusal;
use sheet_meaning::{box_of, floats_of, sag_of};
use sheet_reader_state::Reader;
use sheet_room::in_limits;
use slice_front::{copy, front};

// A body in the first n coordinates and m indices of slices, finished; 52 where these are fewer.
fn finish_fronts(
    rows: &[u32],
    positions: &[f32],
    normals: &mut [f32],
    indices: &mut [u32],
    n: usize,
    m: usize,
    sag: f64,
    reference: Aabb,
    materials: &[u64],
    default: u64,
    out_rows: &mut [u32],
    out_positions: &mut [f32],
    out_normals: &mut [f32],
    out_indices: &mut [u32],
    mesh_positions: &mut [f32],
    mesh_normals: &mut [f32],
    mesh_indices: &mut [u32],
    parts: &mut [u32],
    ranges: &mut [u32],
    failures: &mut [u64],
    work: &mut [u64],
    out: &mut [u8],
) -> usize
    ensures { FrontsSaid rows.now positions.now normals.old indices.old n m sag reference
        materials.now default
        (stitch_in out_rows.old out_positions.old out_normals.old out_indices.old)
        (mesh_in mesh_positions.old mesh_normals.old mesh_indices.old parts.old ranges.old
        failures.old) work.old out.old out.new result }
{
    if normals.len() < n {
        return write_refusal(out, 52);
    }
    if indices.len() < m {
        return write_refusal(out, 52);
    }
    finish_body(
        rows,
        front(positions, n),
        &mut normals[..n],
        &mut indices[..m],
        sag,
        reference,
        materials,
        default,
        out_rows,
        out_positions,
        out_normals,
        out_indices,
        mesh_positions,
        mesh_normals,
        mesh_indices,
        parts,
        ranges,
        failures,
        work,
        out,
    )
}

// The materials of the faces that are numbered to `face`.
fn materials_to(s: &[u64], face: u64) -> &[u64]
    ensures { result.now ≡ take (face + 1) s.now }
{
    let n = face as usize;
    if s.len() <= n {
        return s;
    }
    front(s, n + 1)
}

// The floats made, the indices copied, and the body finished.
fn answer_body(
    s: Reader,
    table: &[u32],
    positions: &[u32],
    normals: &[u32],
    indices: &[u32],
    materials: &[u64],
    body_positions: &mut [f32],
    body_normals: &mut [f32],
    body_indices: &mut [u32],
    out_rows: &mut [u32],
    out_positions: &mut [f32],
    out_normals: &mut [f32],
    out_indices: &mut [u32],
    mesh_positions: &mut [f32],
    mesh_normals: &mut [f32],
    mesh_indices: &mut [u32],
    parts: &mut [u32],
    ranges: &mut [u32],
    failures: &mut [u64],
    work: &mut [u64],
    out: &mut [u8],
) -> usize
    requires body_room { BodyRoom s.limits (length body_positions.old) (length body_normals.old) (length body_indices.old) }
    requires limited { Limited s (length table.now) (length positions.now) (length normals.now) (length indices.now) (length materials.now) }
    ensures { Told (bytes_in
        (mesh_in mesh_positions.old mesh_normals.old mesh_indices.old parts.old ranges.old
        failures.old)) out.old
        (body_text (stitch_in out_rows.old out_positions.old out_normals.old out_indices.old)
        (mesh_in mesh_positions.old mesh_normals.old mesh_indices.old parts.old ranges.old
        failures.old) work.old
        (meant (patterns_of (lent s table.now positions.now normals.now indices.now materials.now))))
        out.new result }
{
    let n = 3 * s.vertices;
    let k = ROW_WIDTH * s.rows;
    let m = s.indices;
    floats_of(front(positions, n), body_positions);
    floats_of(front(normals, n), body_normals);
    copy(front(indices, m), body_indices);
    finish_fronts(
        front(table, k),
        body_positions,
        body_normals,
        body_indices,
        n,
        m,
        sag_of(s),
        box_of(s),
        materials_to(materials, s.limits.face),
        s.default,
        out_rows,
        out_positions,
        out_normals,
        out_indices,
        mesh_positions,
        mesh_normals,
        mesh_indices,
        parts,
        ranges,
        failures,
        work,
        out,
    )
}

// What the program prints of a sheet that was read, cut off where `out` ends; answers how many bytes were written. A reader that counts more than the limits,
// and slices too short for them, are refused with 52.
pub fn answer_sheet(
    s: Reader,
    table: &[u32],
    positions: &[u32],
    normals: &[u32],
    indices: &[u32],
    materials: &[u64],
    body_positions: &mut [f32],
    body_normals: &mut [f32],
    body_indices: &mut [u32],
    out_rows: &mut [u32],
    out_positions: &mut [f32],
    out_normals: &mut [f32],
    out_indices: &mut [u32],
    mesh_positions: &mut [f32],
    mesh_normals: &mut [f32],
    mesh_indices: &mut [u32],
    parts: &mut [u32],
    ranges: &mut [u32],
    failures: &mut [u64],
    work: &mut [u64],
    out: &mut [u8],
) -> usize
    ensures { Told (bytes_in
        (mesh_in mesh_positions.old mesh_normals.old mesh_indices.old parts.old ranges.old
        failures.old)) out.old
        (answer_with (length body_positions.old) (length body_normals.old) (length body_indices.old)
        (stitch_in out_rows.old out_positions.old out_normals.old out_indices.old)
        (mesh_in mesh_positions.old mesh_normals.old mesh_indices.old parts.old ranges.old
        failures.old) work.old
        (lent s table.now positions.now normals.now indices.now materials.now)) out.new result }
{
    let refusal = s.refusal;
    if refusal != 0 {
        return write_refusal(out, refusal);
    }
    if !in_limits(
        s,
        table.len(),
        positions.len(),
        normals.len(),
        indices.len(),
        materials.len(),
    ) {
        return write_refusal(out, 52);
    }
    if !in_limits(
        s,
        table.len(),
        body_positions.len(),
        body_normals.len(),
        body_indices.len(),
        materials.len(),
    ) {
        return write_refusal(out, 52);
    }
    answer_body(
        s,
        table,
        positions,
        normals,
        indices,
        materials,
        body_positions,
        body_normals,
        body_indices,
        out_rows,
        out_positions,
        out_normals,
        out_indices,
        mesh_positions,
        mesh_normals,
        mesh_indices,
        parts,
        ranges,
        failures,
        work,
        out,
    )
}
