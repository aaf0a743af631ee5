// The box that patches are judged by.

ghost use Rattle.std.specs.Prelude.{◌≡◌};
ghost use Rattle.patch_geometry.specs.Geometry.{diagonal};

use patch_geometry::Aabb;

// A body's box, with its diagonal, which no patch may reach beyond.
#[derive(Clone, Copy)]
pub struct Reference {
    pub aabb: Aabb,
    pub span: f64,
    ghost spans: { span ≡ diagonal aabb },
}

impl Reference {
    // The box with its diagonal.
    pub fn new(aabb: Aabb) -> Self
        ensures { result.aabb ≡ aabb }
    {
        let span = aabb.diagonal();
        Reference { aabb, span }
    }
}
