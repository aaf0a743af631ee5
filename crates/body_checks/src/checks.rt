// The checks that every call begins with, in their order.

ghost use Rattle.std.specs.Prelude.{◌≡◌};
ghost use Rattle.body_refusals.specs.BodyChecks.{before_work, body_checks};
ghost use Rattle.body_rows.specs.Body.{first_failing};
ghost use Rattle.refusals.specs.Numbers.{failing};

use body_patch_checks::patch_failing;
use body_rows::work_needed;
use body_table_checks::table_failing;
use refusals::Refusal;

// The first of the checks 11 to 24 that fails, as a refusal.
#[tactic(auto, using(crate::proofs::CheckLaws::before_laws))]
pub fn failing_before_work(
    rows: &[u32],
    positions: &[f32],
    normals: &[f32],
    indices: &[u32],
) -> Result<(), Refusal>
    ensures { failing result ≡ first_failing (before_work rows.now positions.now normals.now indices.now) }
{
    table_failing(rows, positions, normals, indices)?;
    patch_failing(rows, positions, normals, indices)
}

// The first of the checks 11 to 24 and 31 that fails for a work area of so many words, as a refusal.
#[tactic(auto, using(crate::proofs::CheckLaws::body_laws))]
pub fn first_failing(
    rows: &[u32],
    positions: &[f32],
    normals: &[f32],
    indices: &[u32],
    words: usize,
) -> Result<(), Refusal>
    ensures { failing result ≡ first_failing (body_checks rows.now positions.now normals.now indices.now words) }
{
    failing_before_work(rows, positions, normals, indices)?;
    if words < work_needed(rows) {
        return Err(Refusal::WorkArea);
    }
    Ok(())
}
