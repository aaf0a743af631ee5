// The decision on each row, kept in the work area: 0 if it fails, else 1 + its material.

ghost use Rattle.std.specs.Prelude.{◌≡◌, [], map};
ghost use Rattle.std.proofs.lemmas.List.Edits.{sets};
ghost use Rattle.body_rows.specs.Body.{rows_of, patches_of};
ghost use Rattle.body_rows.specs.Rows.{row_at};
ghost use Rattle.body_rows.specs.Patches.{patch_from};
ghost use Rattle.mesh_verdicts.specs.Failures.{failure_of};
ghost use Rattle.mesh_verdicts.specs.Verdicts.{failure_in};
ghost use Rattle.mesh_acceptance.specs.Judged.{decision_of, RowJudgeable, DecisionReady, Judgeable};

use mesh_materials::{FaceId, material_of};
use mesh_verdicts::{Failure, Reference, verdict_of};
use patch_geometry::Aabb;

// Whether row k is accepted, whose vertices start at `base` and whose indices at i.
pub fn row_verdict(
    rows: &[u32],
    positions: &[f32],
    indices: &[u32],
    reference: Reference,
    k: usize,
    base: usize,
    i: usize,
) -> Result<(), Failure>
    requires { RowJudgeable rows.now positions.now indices.now k base i }
    ensures { failure_in result ≡ failure_of reference.aabb (patch_from (row_at rows.now k) positions.now [] indices.now base i) }
{
    let first = 3 * base;
    let last = 3 * (base + body_rows::vertices(rows, k) as usize);
    let end = i + body_rows::indices(rows, k) as usize;
    let outcome = body_rows::outcome(rows, k);
    verdict_of(
        outcome,
        &positions[first..last],
        &indices[i..end],
        reference,
    )
}

// The decision on row k.
fn decision(
    rows: &[u32],
    positions: &[f32],
    indices: &[u32],
    reference: Reference,
    materials: &[u64],
    default: u64,
    k: usize,
    base: usize,
    i: usize,
) -> u64
    requires { DecisionReady rows.now positions.now indices.now materials.now default k base i }
    ensures { result ≡ decision_of reference.aabb materials.now default
        (patch_from (row_at rows.now k) positions.now [] indices.now base i) }
{
    let verdict = row_verdict(rows, positions, indices, reference, k, base, i);
    match verdict {
        Ok(()) => {
            let material = material_of(materials, default, FaceId(body_rows::face(rows, k)));
            material.0 as u64 + 1
        }
        Err(_) => 0,
    }
}

// The decisions on all rows become the first words of w.
pub fn judge_rows(
    rows: &[u32],
    positions: &[f32],
    indices: &[u32],
    reference: Aabb,
    materials: &[u64],
    default: u64,
    w: &mut [u64],
)
    requires { Judgeable rows.now positions.now indices.now materials.now default w.old }
    ensures { w.new ≡ sets w.old 0
        (map (decision_of reference materials.now default)
        (patches_of (rows_of rows.now) positions.now [] indices.now)) }
{
    let reference = Reference::new(reference);
    let m = body_rows::row_count(rows);
    let mut base = 0usize;
    let mut i = 0usize;
    for k in 0..m {
        w[k] = decision(
            rows, positions, indices, reference, materials, default, k, base, i,
        );
        base += body_rows::vertices(rows, k) as usize;
        i += body_rows::indices(rows, k) as usize;
    }
}
