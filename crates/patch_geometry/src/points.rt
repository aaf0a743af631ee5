// The vertices of a patch as points.

ghost use Rattle.std.specs.Prelude.{◌≡◌, ◌+◌, ◌*◌, ◌<◌, length};
ghost use Rattle.patch_geometry.specs.Geometry.{point_at, vertex_at};

use crate::Vec3;

// The vertex whose coordinates start at k, widened.
pub fn vertex(positions: &[f32], k: usize) -> Vec3
    requires { k + 2 < length positions.now }
    ensures { result ≡ vertex_at positions.now k }
{
    Vec3 {
        x: float_steps::widen_f32(positions[k]),
        y: float_steps::widen_f32(positions[k + 1]),
        z: float_steps::widen_f32(positions[k + 2]),
    }
}

// Vertex i of a patch.
pub fn point(positions: &[f32], i: u32) -> Vec3
    requires { 3 * i + 2 < length positions.now }
    ensures { result ≡ point_at positions.now i }
{
    vertex(positions, 3 * (i as usize))
}
