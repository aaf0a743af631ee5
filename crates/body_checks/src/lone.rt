// The checks of a patch asked about alone: a body of one row, with no work area.

ghost use Rattle.std.specs.Prelude.{◌≡◌};
ghost use Rattle.body_table_checks.specs.Tabled.{Tabled};
ghost use Rattle.body_rows.specs.Body.{first_failing, patches_of, rows_of};
ghost use Rattle.body_refusals.specs.BodyChecks.{lone_checks, lone_table};
ghost use Rattle.body_refusals.specs.PatchChecks.{patch_checks};
ghost use Rattle.body_refusals.specs.TableChecks.{table_checks};
ghost use Rattle.refusals.specs.Numbers.{failing};

use body_patch_checks::{any_at_least, any_clamps, any_number_not_finite};
use body_table_checks::too_many;
use refusals::Refusal;

// The first of the checks 11 to 15 that fails, as a refusal: the table is one row of a patch, of bin 0.
fn lone_table_failing(positions: &[f32], normals: &[f32], indices: &[u32]) -> Result<(), Refusal>
    ensures { failing result ≡ first_failing (table_checks (lone_table positions.now indices.now)
        (rows_of (lone_table positions.now indices.now))
        positions.now normals.now indices.now) }
{
    let v = positions.len() / 3;
    if too_many(v, indices.len()) {
        return Err(Refusal::Limit);
    }
    if positions.len() != 3 * v {
        return Err(Refusal::Lengths);
    }
    if normals.len() != 3 * v {
        return Err(Refusal::Lengths);
    }
    Ok(())
}

// The first of the checks 21 to 24 that fails, as a refusal.
fn lone_patch_failing(positions: &[f32], normals: &[f32], indices: &[u32]) -> Result<(), Refusal>
    requires { Tabled (lone_table positions.now indices.now) positions.now normals.now indices.now }
    ensures { failing result ≡ first_failing (patch_checks (patches_of (rows_of (lone_table positions.now indices.now)) positions.now
        normals.now indices.now)) }
{
    if indices.len() % 3 != 0 {
        return Err(Refusal::Triangles);
    }
    let v = positions.len() / 3;
    if any_at_least(indices, v as u32) {
        return Err(Refusal::Index);
    }
    if any_number_not_finite(positions, normals) {
        return Err(Refusal::NotFinite);
    }
    if any_clamps(positions) {
        return Err(Refusal::Clamped);
    }
    Ok(())
}

// The first of the checks 11 to 24 that fails for a patch alone, as a refusal.
pub fn lone_failing(positions: &[f32], normals: &[f32], indices: &[u32]) -> Result<(), Refusal>
    ensures { failing result ≡ first_failing (lone_checks positions.now normals.now indices.now) }
{
    lone_table_failing(positions, normals, indices)?;
    lone_patch_failing(positions, normals, indices)
}
