// The points of order words: one, a coordinate of one, and the box of several.

ghost use Rattle.std.specs.Prelude.{◌≡◌, get_or};
ghost use Rattle.stitch_tree.specs.Nodes.{point_of, PointHeld, CoordinateHeld, Pointed, PointsBounded};

use crate::PLACE_STEP;
use patch_geometry::{Vec3, vertex};
use stitch_boxes::Bounds;

// The point of word j.
fn point_at(positions: &[f32], w: &[u64], v: usize, j: usize) -> Vec3
    requires { PointHeld positions.now v j w.now }
    ensures { result ≡ point_of positions.now (get_or w.now j 0) }
{
    vertex(positions, 3 * (w[j] % PLACE_STEP) as usize)
}

// A coordinate of the point of word j.
pub fn coordinate(positions: &[f32], w: &[u64], v: usize, j: usize, axis: usize) -> f64
    requires { CoordinateHeld positions.now v j axis w.now }
{
    let g = (w[j] % PLACE_STEP) as usize;
    float_steps::widen_f32(positions[3 * g + axis])
}

// The box of the points of the words from `from` up to `to`.
pub fn bound_points(positions: &[f32], w: &[u64], v: usize, from: usize, to: usize) -> Bounds
    requires { Pointed positions.now v from to w.now }
    ensures { PointsBounded positions.now from to w.now result }
{
    let mut b = Bounds::empty();
    for j in from..to {
        b = b.hull(Bounds::point(point_at(positions, w, v, j)));
    }
    b
}
