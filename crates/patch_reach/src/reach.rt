// How far a patch reaches from the centre of the body's box, and whether it escapes.

ghost use Rattle.std.specs.Prelude.{◌≡◌, ◌+◌, ◌<◌, length};
ghost use Rattle.patch_measures.specs.Reach.{escapes_body, farthest, reach_from, square_at};
ghost use Rattle.patch_geometry.specs.Geometry.{zero64};

use patch_geometry::{Aabb, Vec3, vertex};

// The square of how far the vertex whose coordinates start at k is from c.
fn distance_squared(positions: &[f32], k: usize, c: Vec3) -> f64
    requires { k + 2 < length positions.now }
    ensures { result ≡ square_at positions.now k c }
{
    let d = vertex(positions, k) - c;
    d.dot(d)
}

// How far the farthest vertex is from c. One root serves all vertices, since the root of the larger of two squares is the larger of their roots.
fn reach_from(positions: &[f32], c: Vec3) -> f64
    ensures { result ≡ reach_from c zero64 positions.now }
{
    let mut far = 0.0f64;
    for i in 0..positions.len() / 3 {
        far = float_steps::larger_f64(far, distance_squared(positions, 3 * i, c));
    }
    float_sqrt::sqrt_f64(far)
}

// How far the farthest vertex, used or not, is from the box's centre; 0 for an empty box.
pub fn farthest(positions: &[f32], reference: Aabb) -> f64
    ensures { result ≡ farthest positions.now reference }
{
    if reference.is_empty() {
        return 0.0;
    }
    reach_from(positions, reference.centre())
}

// Whether a patch escapes: the box isn't empty, its diagonal is above 0, and the farthest vertex from its centre is beyond the diagonal.
pub fn escapes_body(positions: &[f32], reference: Aabb) -> bool
    ensures { result ≡ escapes_body positions.now reference }
{
    if reference.is_empty() {
        return false;
    }
    let span = reference.diagonal();
    if span > 0.0 {
        return farthest(positions, reference) > span;
    }
    false
}
