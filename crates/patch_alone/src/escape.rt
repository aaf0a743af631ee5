// A patch asked about alone: its checks, and then whether it escapes.

ghost use Rattle.std.specs.Prelude.{◌≡◌};
ghost use Rattle.refusals.specs.Numbers.{numbered};
ghost use Rattle.patch_alone.specs.Answers.{answer_of};
ghost use Rattle.patch_alone.specs.Alone.{escapes_alone};

use body_checks::lone_failing;
use patch_geometry::Aabb;
use patch_reach::escapes_body;
use refusals::Refusal;

// Whether a patch alone escapes.
#[tactic(auto, using(refusals::specs::Laws::number_positive, crate::proofs::AloneLaws::escapes_told))]
pub fn escapes_alone(
    positions: &[f32],
    normals: &[f32],
    indices: &[u32],
    reference: Aabb,
) -> Result<bool, Refusal>
    ensures { numbered result ≡ answer_of (escapes_alone positions.now normals.now indices.now reference) }
{
    lone_failing(positions, normals, indices)?;
    Ok(escapes_body(positions, reference))
}
