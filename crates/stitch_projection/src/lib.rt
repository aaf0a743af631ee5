// Edges and hits on them, and an edge made; where a point projects, when it is within the sag and how normals are mixed is defined in specs/.
#![tactic(auto)]

ghost use Rattle.std.specs.Prelude.{◌≡◌};
ghost use Rattle.stitch_projection.specs.Projection.{edge_of};

use patch_geometry::Vec3;

// An edge from a point to another: its start, the way along it, and its squared length.
#[derive(Clone, Copy)]
pub struct Edge {
    pub start: Vec3,
    pub along: Vec3,
    pub squared: f64,
}

// Where a point projects on an edge, and its distance from there.
#[derive(Clone, Copy)]
pub struct Hit {
    pub t: f64,
    pub distance: f64,
}

// The edge p to q.
pub fn edge_of(p: Vec3, q: Vec3) -> Edge
    ensures { result ≡ edge_of p q }
{
    let d = q - p;
    Edge {
        start: p,
        along: d,
        squared: d.dot(d),
    }
}
