// Whether a point projects into an edge within the sag; a root is taken only where the square of the distance leaves it open.
#![tactic(auto)]

ghost use Rattle.std.specs.Prelude.{◌≡◌};
ghost use Rattle.stitch_sag.specs.Beyond.{Beyond, Ruled};
ghost use Rattle.stitch_projection.specs.Projection.{within_sag};

use patch_geometry::Vec3;
use stitch_feet::foot_of;
use stitch_projection::Edge;

// The lowest sag that is squared: the square of a much lower one would vanish.
const LEAST_SQUARED: f64 = 1e-100;

// What is squared for a sag.
fn squared_sag(sag: f64) -> f64 {
    if sag < LEAST_SQUARED {
        return LEAST_SQUARED;
    }
    sag
}

// A squared distance beyond which a distance is above the sag: a millionth more than the sag's square, or, where that says nothing, the infinity.
pub fn beyond_of(sag: f64) -> f64
    ensures { Beyond sag result }
{
    let s = squared_sag(sag);
    let b = 1.000001 * s * s;
    if float_sqrt::sqrt_f64(b) > sag {
        return b;
    }
    1.0 / 0.0
}

// Whether r projects into an edge at a distance that isn't above the sag.
pub fn within_sag(s: Edge, r: Vec3, sag: f64, beyond: f64) -> bool
    requires { Beyond sag beyond }
    ensures { result ≡ within_sag sag s r }
{
    match foot_of(s, r) {
        None => false,
        Some(f) => {
            let off = f.off;
            let d = off.dot(off);
            if d > beyond {
                return false;
            }
            !(float_sqrt::sqrt_f64(d) > sag)
        }
    }
}

// Whether r may be within the sag of an edge: not if it projects outside, which the sign of one product tells, nor if it is beyond. Both are asked without a
// jump, which a processor could not foresee.
pub fn may_hit(s: Edge, r: Vec3, beyond: f64) -> bool
    ensures { Ruled beyond s r result }
{
    let start = s.start;
    let along = s.along;
    let w = r - start;
    let t = w.dot(along) / s.squared;
    let outside = (t - 0.000001) * (0.999999 - t) < 0.0;
    let off = w - along * t;
    let d = off.dot(off);
    !(outside | (d > beyond))
}
