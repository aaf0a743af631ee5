// Whether a patch is accepted, and if not, why.

ghost use Rattle.std.specs.Prelude.{◌≡◌};
ghost use Rattle.mesh_verdicts.specs.Failures.{escape_of, failure_by};
ghost use Rattle.mesh_verdicts.specs.Verdicts.{failure_in};

use crate::{Failure, Reference};

// A patch fails if it escapes the body's box.
fn escape_of(positions: &[f32], reference: Reference) -> Result<(), Failure>
    ensures { failure_in result ≡ escape_of reference.aabb positions.now }
{
    if reference.aabb.is_empty() {
        return Ok(());
    }
    if reference.span > 0.0 {
        let reach = patch_reach::farthest(positions, reference.aabb);
        if reach > reference.span {
            return Err(Failure::Escape(reach, reference.span));
        }
    }
    Ok(())
}

// Whether a row's patch is accepted: an upstream failure goes first, then a patch without triangles, then an escape.
pub fn verdict_of(
    outcome: u32,
    positions: &[f32],
    indices: &[u32],
    reference: Reference,
) -> Result<(), Failure>
    ensures { failure_in result ≡ failure_by reference.aabb outcome positions.now indices.now }
{
    if outcome != 0 {
        return Err(Failure::Upstream(outcome));
    }
    if indices.len() == 0 {
        return Err(Failure::Empty);
    }
    escape_of(positions, reference)
}
