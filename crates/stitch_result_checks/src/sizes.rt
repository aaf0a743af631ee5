// Checks 33 and 32: the size of the result, and room for it in the slices to write.

ghost use Rattle.std.specs.Prelude.{◌≡◌, length, ◌≤◌};
ghost use Rattle.refusals.specs.Numbers.{failing};
ghost use Rattle.body_rows.specs.Body.{first_failing};
ghost use Rattle.stitch_result_checks.specs.Results.{SmallResult, result_checks, too_short};

use body_rows::ROW_WIDTH;
use body_table_checks::{MOST_INDICES, MOST_VERTICES};
use refusals::Refusal;

// 32: whether a slice to write is shorter than the result needs.
fn too_short(
    vertices: usize,
    indices: usize,
    rows: usize,
    out_rows: &[u32],
    out_positions: &[f32],
    out_normals: &[f32],
    out_indices: &[u32],
) -> bool
    requires { SmallResult vertices rows }
    ensures { result ≡ too_short vertices indices rows
        (length out_rows.now) (length out_positions.now) (length out_normals.now)
        (length out_indices.now) }
{
    if out_rows.len() < ROW_WIDTH * rows {
        return true;
    }
    if out_positions.len() < 3 * vertices {
        return true;
    }
    if out_normals.len() < 3 * vertices {
        return true;
    }
    out_indices.len() < indices
}

// The first of the checks 33 and 32 that fails for a result of so many vertices, indices and rows, as a refusal.
pub fn result_failing(
    vertices: usize,
    indices: usize,
    rows: usize,
    out_rows: &[u32],
    out_positions: &[f32],
    out_normals: &[f32],
    out_indices: &[u32],
) -> Result<(), Refusal>
    requires { rows ≤ 4096 }
    ensures { failing result ≡ first_failing (result_checks vertices indices rows
        (length out_rows.now) (length out_positions.now) (length out_normals.now)
        (length out_indices.now)) }
{
    if vertices > MOST_VERTICES {
        return Err(Refusal::StitchedLimit);
    }
    if indices > MOST_INDICES {
        return Err(Refusal::StitchedLimit);
    }
    if too_short(
        vertices,
        indices,
        rows,
        out_rows,
        out_positions,
        out_normals,
        out_indices,
    ) {
        return Err(Refusal::Output);
    }
    Ok(())
}
