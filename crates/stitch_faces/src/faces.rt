// A row's indices after stitching, as a stretch of the list that holds them.

ghost use Rattle.std.specs.Prelude.{◌≡◌, ◌+◌, ◌≤◌, length};
ghost use Rattle.body_rows.specs.Body.{rows_of};
ghost use Rattle.body_rows.specs.Rows.{indices_before, row_at};
ghost use Rattle.stitch_faces.specs.Faces.{copy_face, face_indices, is_stitched, left_face, row_indices};
ghost use Rattle.stitch_faces.specs.Places.{Place};

// The place n past `at`, but not past the end.
fn past(at: usize, n: usize, end: usize) -> usize
    requires { at ≤ end }
    ensures { Place (at + n) end result }
{
    at + n.min(end - at)
}

// Where row k's indices start, but not past the end.
fn start_of(rows: &[u32], k: usize, end: usize) -> usize
    requires { k ≤ length (rows_of rows.now) }
    ensures { Place (indices_before (rows_of rows.now) k) end result }
{
    let mut at = 0usize;
    for j in 0..k {
        at = past(at, body_rows::indices(rows, j) as usize, end);
    }
    at
}

// Row k's indices of a body's, none past the end.
fn row_indices<'a>(rows: &[u32], indices: &'a [u32], k: usize) -> &'a [u32]
    ensures { result.now ≡ row_indices rows.now indices.now k }
{
    if k < body_rows::row_count(rows) {
        let end = indices.len();
        let start = start_of(rows, k, end);
        let stop = past(start, body_rows::indices(rows, k) as usize, end);
        return &indices[start..stop];
    }
    &indices[..0]
}

// The vertex count of row k, 0 past the end.
fn vertices_of(rows: &[u32], k: usize) -> u32
    ensures { result ≡ (row_at rows.now k).vertices }
{
    if k < body_rows::row_count(rows) {
        return body_rows::vertices(rows, k);
    }
    0
}

// Whether row k was stitched: it has new vertices.
fn is_stitched(rows: &[u32], stitched_rows: &[u32], k: usize) -> bool
    ensures { result ≡ is_stitched rows.now stitched_rows.now k }
{
    if k < body_rows::row_count(rows) {
        return vertices_of(rows, k) < vertices_of(stitched_rows, k);
    }
    false
}

// Row k's indices after stitching: a stretch of the new list if the row was stitched, else of the old; past the end an empty one.
pub fn face_indices<'a>(
    rows: &[u32],
    stitched_rows: &[u32],
    old: &'a [u32],
    new: &'a [u32],
    k: usize,
) -> &'a [u32]
    ensures { result.now
        ≡ face_indices rows.now stitched_rows.now old.now new.now k }
{
    if is_stitched(rows, stitched_rows, k) {
        return row_indices(stitched_rows, new, k);
    }
    row_indices(rows, old, k)
}

// Row k's indices after stitching copied to the front of `out`, as many as there is room for; how many there are.
pub fn copy_face_indices<'a>(
    rows: &[u32],
    old: &'a [u32],
    stitched_rows: &[u32],
    new: &'a [u32],
    k: usize,
    out: &mut [u32],
) -> u64
    ensures { left_face result out.new
        ≡ copy_face (face_indices rows.now stitched_rows.now old.now new.now k) out.old }
{
    let face = face_indices(rows, stitched_rows, old, new, k);
    slice_front::copy(face, out);
    face.len() as u64
}
