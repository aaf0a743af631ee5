// Whether a loose point counts for an edge of a triangle, and on which edge it is found first.

ghost use Rattle.std.specs.Prelude.{◌≡◌};
ghost use Rattle.stitch_sag.specs.Beyond.{Beyond};
ghost use Rattle.stitch_splits.specs.Found.{counts, found_only};
ghost use Rattle.stitch_triangle.specs.Finding.{FindReady};

use patch_geometry::Vec3;
use stitch_splits::{Sides, TriangleEdge};

// Whether a point of that name counts for an edge: the edge is open, the name is neither end's, and it projects into the edge within the sag.
fn counts_for(s: TriangleEdge, name: u64, r: Vec3, sag: f64, beyond: f64) -> bool
    requires { Beyond sag beyond }
    ensures { result ≡ counts sag s name r }
{
    let apart = s.is_open & (name != s.start) & (name != s.end);
    apart && stitch_sag::within_sag(s.edge, r, sag, beyond)
}

// Whether a point counts for edge e, and for none before it.
#[tactic(auto, unfolding(stitch_splits::specs::Found::found_only, stitch_splits::specs::Found::counts_on))]
pub fn found_on(s: Sides, e: u64, name: u64, r: Vec3, sag: f64, beyond: f64) -> bool
    requires { FindReady sag beyond e }
    ensures { result ≡ found_only sag s e name r }
{
    match e {
        0 => counts_for(s.first, name, r, sag, beyond),
        1 => {
            counts_for(s.second, name, r, sag, beyond) && !counts_for(s.first, name, r, sag, beyond)
        }
        _ => {
            counts_for(s.third, name, r, sag, beyond)
                && !counts_for(s.first, name, r, sag, beyond)
                && !counts_for(s.second, name, r, sag, beyond)
        }
    }
}
