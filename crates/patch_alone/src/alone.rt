// A patch asked about alone: its checks, and then its volume or its reach.

ghost use Rattle.std.specs.Prelude.{◌≡◌};
ghost use Rattle.refusals.specs.Numbers.{numbered};
ghost use Rattle.patch_alone.specs.Answers.{answer_of};
ghost use Rattle.patch_alone.specs.Alone.{farthest_alone, volume_alone};

use body_checks::lone_failing;
use patch_geometry::Aabb;
use patch_reach::farthest;
use patch_volume::patch_volume;
use refusals::Refusal;

// The volume of a patch alone.
pub fn patch_volume_alone(
    positions: &[f32],
    normals: &[f32],
    indices: &[u32],
    flip: bool,
) -> Result<f64, Refusal>
    ensures { numbered result ≡ answer_of (volume_alone positions.now normals.now indices.now flip) }
{
    lone_failing(positions, normals, indices)?;
    Ok(patch_volume(positions, indices, flip))
}

// The reach of a patch alone.
pub fn farthest_alone(
    positions: &[f32],
    normals: &[f32],
    indices: &[u32],
    reference: Aabb,
) -> Result<f64, Refusal>
    ensures { numbered result ≡ answer_of (farthest_alone positions.now normals.now indices.now reference) }
{
    lone_failing(positions, normals, indices)?;
    Ok(farthest(positions, reference))
}
