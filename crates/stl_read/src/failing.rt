// The checks of a file, 72 to 74, and 75 by the lengths of the slices.

ghost use Rattle.std.specs.Prelude.{◌≡◌, ◌||◌, ◌*◌, ◌≤◌, ltb};
ghost use Rattle.body_rows.specs.Body.{first_failing, row_width};
ghost use Rattle.stl_definition.specs.Read.{most_triangles};
ghost use Rattle.refusals.specs.Numbers.{failing};
ghost use Rattle.stl_read.specs.Ready.{file_checks};

use crate::corners::any_not_finite;
use crate::words::word_at;
use body_rows::ROW_WIDTH;
use refusals::Refusal;
use stl_definition::{FACET_BYTES, HEAD_BYTES, HEADER_BYTES};

// The most triangles that are read.
const MOST_TRIANGLES: usize = 32000;

// The first of the checks 72 to 74 that fails, as a refusal.
pub fn file_failing(file: &[u8]) -> Result<(), Refusal>
    ensures { failing result ≡ first_failing (file_checks file.now) }
{
    if file.len() < HEAD_BYTES {
        return Err(Refusal::FileLength);
    }
    let n = word_at(file, HEADER_BYTES) as usize;
    if file.len() != HEAD_BYTES + FACET_BYTES * n {
        return Err(Refusal::FileLength);
    }
    if MOST_TRIANGLES < n {
        return Err(Refusal::FileTriangles);
    }
    if any_not_finite(file, n) {
        return Err(Refusal::FileCorner);
    }
    Ok(())
}

// 75: whether slices of these lengths are too short for n triangles.
pub fn no_room(rows: usize, positions: usize, normals: usize, indices: usize, n: usize) -> bool
    requires { n ≤ most_triangles }
    ensures { result ≡ (ltb rows row_width || ltb positions (9 * n) || ltb normals (9 * n) || ltb indices (3 * n)) }
{
    (rows < ROW_WIDTH) | (positions < 9 * n) | (normals < 9 * n) | (indices < 3 * n)
}
