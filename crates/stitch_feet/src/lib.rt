// Where a point projects on an edge, strictly between its ends, and how far off it is.
#![tactic(auto)]

ghost use Rattle.std.specs.Prelude.{◌≡◌};
ghost use Rattle.stitch_feet.specs.Answers.{footing, as_option};
ghost use Rattle.stitch_projection.specs.Projection.{project};

use patch_geometry::Vec3;
use stitch_projection::{Edge, Hit};

// The projection parameter, and the way from the projection to the point.
#[derive(Clone, Copy)]
pub struct Foot {
    pub t: f64,
    pub off: Vec3,
}

// Where r projects into an edge, if it has a length and 1e-6 < t < 1 − 1e-6.
pub fn foot_of(s: Edge, r: Vec3) -> Option<Foot>
    ensures { result ≡ footing s r }
{
    let squared = s.squared;
    if squared == 0.0 {
        return None;
    }
    let start = s.start;
    let along = s.along;
    let w = r - start;
    let t = w.dot(along) / squared;
    if t > 0.000001 {
        if t < 0.999999 {
            let off = w - along * t;
            return Some(Foot { t, off });
        }
    }
    None
}

// The hit of r on an edge.
pub fn project(s: Edge, r: Vec3) -> Option<Hit>
    ensures { result ≡ as_option (project s r) }
{
    let f = foot_of(s, r)?;
    let off = f.off;
    Some(Hit {
        t: f.t,
        distance: off.length(),
    })
}
