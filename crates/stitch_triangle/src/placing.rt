// A point placed on the nearest of a triangle's edges that it projects into.

ghost use Rattle.std.specs.Prelude.{◌≡◌};
ghost use Rattle.std.proofs.Math.Option.{some};
ghost use Rattle.stitch_projection.specs.Projection.{project};
ghost use Rattle.stitch_splits.specs.Found.{nearer_spot, spot_of};
ghost use Rattle.stitch_feet.specs.Answers.{as_option, of_option};

use patch_geometry::Vec3;
use stitch_projection::Hit;
use stitch_splits::{Sides, Spot};

// The nearer of a place and a hit on edge e: the first on ties.
fn nearer_hit(best: Option<Spot>, e: u64, h: Hit) -> Option<Spot>
    ensures { result ≡ as_option (nearer_spot (of_option best) e (some h)) }
{
    let hit = Spot {
        e: e,
        t: h.t,
        distance: h.distance,
    };
    match best {
        None => Some(hit),
        Some(b) => {
            if h.distance < b.distance {
                return Some(hit);
            }
            Some(b)
        }
    }
}

// The nearer of a place and where a point projects on edge e.
fn nearer(best: Option<Spot>, e: u64, edge: stitch_projection::Edge, r: Vec3) -> Option<Spot>
    ensures { result ≡ as_option (nearer_spot (of_option best) e (project edge r)) }
{
    match stitch_feet::project(edge, r) {
        None => best,
        Some(h) => nearer_hit(best, e, h),
    }
}

// Where a point is placed: on the nearest of all three edges that it projects into.
pub fn place_on(s: Sides, r: Vec3) -> Option<Spot>
    ensures { result ≡ as_option (spot_of s r) }
{
    let first = nearer(None, 0, s.first.edge, r);
    let second = nearer(first, 1, s.second.edge, r);
    nearer(second, 2, s.third.edge, r)
}
