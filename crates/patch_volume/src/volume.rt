// A patch's signed volume: six times the volume of each triangle with the origin, summed and divided by 6 once.

ghost use Rattle.std.specs.Prelude.{◌≡◌, ◌+◌, ◌*◌};
ghost use Rattle.patch_measures.specs.Volume.{Corners, CornersInside, det, patch_volume, triangle_volume};
ghost use Rattle.patch_geometry.specs.Geometry.{point_at};

use patch_geometry::{Vec3, point};

// The determinant of three points, left to right.
pub fn triple(a: Vec3, b: Vec3, c: Vec3) -> f64
    ensures { result ≡ det a b c }
{
    a.x * (b.y * c.z - b.z * c.y) - a.y * (b.x * c.z - b.z * c.x) + a.z * (b.x * c.y - b.y * c.x)
}

// The determinant of three vertices.
fn corners(positions: &[f32], a: u32, b: u32, c: u32) -> f64
    requires { Corners positions.now a b c }
    ensures { result ≡ det (point_at positions.now a) (point_at positions.now b) (point_at positions.now c) }
{
    let p = point(positions, a);
    let q = point(positions, b);
    let r = point(positions, c);
    triple(p, q, r)
}

// The value of one triangle, its second and third corner swapped where flip says so.
fn triangle(positions: &[f32], a: u32, b: u32, c: u32, flip: bool) -> f64
    requires { Corners positions.now a b c }
    ensures { result ≡ triangle_volume positions.now flip (record { a = a; b = b; c = c }) }
{
    if flip {
        return corners(positions, a, c, b);
    }
    corners(positions, a, b, c)
}

// The volume of a patch, reversed where flip says so.
pub fn patch_volume(positions: &[f32], indices: &[u32], flip: bool) -> f64
    requires { CornersInside positions.now indices.now }
    ensures { result ≡ patch_volume positions.now indices.now flip }
{
    let mut total = 0.0f64;
    let (triangles, _) = indices.as_chunks::<3>();
    for [a, b, c] in triangles {
        total = total + triangle(positions, *a, *b, *c, flip);
    }
    total / 6.0
}
