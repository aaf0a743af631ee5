// The three edges of a triangle with what finding splits asks of them.

ghost use Rattle.std.specs.Prelude.{◌≡◌, ◌≤◌};
ghost use Rattle.stitch_splits.specs.Found.{side_of};

use stitch_projection::Edge;

// An edge of a triangle, the names of its ends, and whether it is open.
#[derive(Clone, Copy)]
pub struct TriangleEdge {
    pub edge: Edge,
    pub start: u64,
    pub end: u64,
    pub is_open: bool,
}

// The edges from corner 0, 1 and 2.
#[derive(Clone, Copy)]
pub struct Sides {
    pub first: TriangleEdge,
    pub second: TriangleEdge,
    pub third: TriangleEdge,
}

// Where a point is placed: an edge, the parameter along it, and the distance from it.
#[derive(Clone, Copy)]
pub struct Spot {
    pub e: u64,
    pub t: f64,
    pub distance: f64,
}

// The edge from corner e.
#[tactic(auto, unfolding(crate::specs::Found::side_of))]
pub fn side_of(s: Sides, e: u64) -> TriangleEdge
    requires { e ≤ 2 }
    ensures { result ≡ side_of s e }
{
    match e {
        0 => s.first,
        1 => s.second,
        _ => s.third,
    }
}
