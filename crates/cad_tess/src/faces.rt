// The faces of a body: their numbers, and their indices after stitching.

ghost use Rattle.std.specs.Prelude.{◌≡◌};
ghost use Rattle.body_row_structs.specs.FaceRows.{face_at};
ghost use Rattle.stitch_faces.specs.Faces.{copy_face, face_indices, left_face};

use body_row_structs::Row;

// The face number of row k, or 0 past the end; the table is lent as a slice of rows.
#[unsafe(no_mangle)]
pub extern "C" fn cad_face_at(rows: &[Row], k: usize) -> u32
    ensures { result ≡ (face_at rows.now k).0 }
{
    body_row_structs::face_at(rows, k).0
}

// Row k's indices after stitching, copied to the front of `out` as far as it has room; how many there are.
#[unsafe(no_mangle)]
pub extern "C" fn cad_face_indices<'a>(
    rows: &[u32],
    indices: &'a [u32],
    stitched_rows: &[u32],
    stitched_indices: &'a [u32],
    k: usize,
    out: &mut [u32],
) -> u64
    ensures { left_face result out.new
        ≡ copy_face (face_indices rows.now stitched_rows.now indices.now stitched_indices.now k)
        out.old }
{
    stitch_faces::copy_face_indices(rows, indices, stitched_rows, stitched_indices, k, out)
}
