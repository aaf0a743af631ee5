// The normal of a point between two vertices.
#![tactic(auto)]

ghost use Rattle.std.specs.Prelude.{◌≡◌};
ghost use Rattle.stitch_normals.specs.Answers.{normal_of};
ghost use Rattle.stitch_projection.specs.Projection.{mixed};

use patch_geometry::Vec3;

// A normal as a mesh holds it.
#[derive(Clone, Copy)]
pub struct Normal {
    pub x: f32,
    pub y: f32,
    pub z: f32,
}

// The normal at t between two, divided by the larger of its length and 1e-30, and narrowed.
pub fn mixed_normal(na: Vec3, nb: Vec3, t: f64) -> Normal
    ensures { normal_of result ≡ mixed na nb t }
{
    let m = na * (1.0 - t) + nb * t;
    let l = float_steps::larger_f64(m.length(), 1e-30);
    Normal {
        x: float_narrow::narrow_f64(m.x / l),
        y: float_narrow::narrow_f64(m.y / l),
        z: float_narrow::narrow_f64(m.z / l),
    }
}
