// Boxes of points, and whether one is far from an edge: the formula of the distance evaluated on spans.
#![tactic(auto)]

ghost use Rattle.std.specs.Prelude.{◌≡◌};
ghost use Rattle.std.specs.Float.{binary64};
ghost use Rattle.float_spans.specs.Spans.{minus, times, least_square};
ghost use Rattle.stitch_boxes.specs.Boxes.{empty_box, point_box, hull_v, less_v, dot_v, start_of, end_of, inside, least_off, far};

use float_spans::Span;
use patch_geometry::Vec3;
use stitch_projection::Edge;

// A span for each axis.
#[derive(Clone, Copy)]
pub struct Bounds {
    pub x: Span,
    pub y: Span,
    pub z: Span,
}

impl Bounds {
    // The box of nothing.
    pub fn empty() -> Bounds
        ensures { result ≡ empty_box }
    {
        let none = Span::empty();
        Bounds {
            x: none,
            y: none,
            z: none,
        }
    }

    // The box of one point.
    pub fn point(p: Vec3) -> Bounds
        ensures { result ≡ point_box p }
    {
        Bounds {
            x: Span::one(p.x),
            y: Span::one(p.y),
            z: Span::one(p.z),
        }
    }

    // The least box that holds what this or the other holds.
    pub fn hull(self, o: Bounds) -> Bounds
        ensures { result ≡ hull_v self o }
    {
        let x = self.x;
        let y = self.y;
        let z = self.z;
        Bounds {
            x: x.hull(o.x),
            y: y.hull(o.y),
            z: z.hull(o.z),
        }
    }

    // The ways from p to the points of the box.
    pub fn less(self, p: Vec3) -> Bounds
        ensures { result ≡ less_v self p }
    {
        let x = self.x;
        let y = self.y;
        let z = self.z;
        Bounds {
            x: x - p.x,
            y: y - p.y,
            z: z - p.z,
        }
    }

    // The products of the points of the box with d.
    pub fn dot(self, d: Vec3) -> Span
        ensures { result ≡ dot_v self d }
    {
        let x = self.x;
        let y = self.y;
        let z = self.z;
        x * d.x + y * d.y + z * d.z
    }
}

// The low end of what counts.
fn start_of(low: f64) -> f64
    ensures { result ≡ start_of low }
{
    if low > 0.000001 {
        return low;
    }
    0.000001
}

// The high end of what counts.
fn end_of(high: f64) -> f64
    ensures { result ≡ end_of high }
{
    if high < 0.999999 {
        return high;
    }
    0.999999
}

// What a span has of the parameters that count.
fn inside(u: Span) -> Span
    ensures { result ≡ inside u }
{
    Span {
        low: start_of(u.low),
        high: end_of(u.high),
    }
}

// The least square of the way from the projection, on one axis.
fn least_way(w: Span, u: Span, c: f64) -> f64
    ensures { result ≡ least_square binary64 (minus binary64 w (times binary64 u c)) }
{
    (w - u * c).least_square()
}

// The least square of the distance, for ways in w and parameters in u.
fn least_off(w: Bounds, d: Vec3, u: Span) -> f64
    ensures { result ≡ least_off w d u }
{
    let x = w.x;
    let y = w.y;
    let z = w.z;
    least_way(x, u, d.x) + least_way(y, u, d.y) + least_way(z, u, d.z)
}

// Whether no point of a box is within a distance of an edge whose square is `beyond`; false tells nothing.
pub fn far(b: Bounds, s: Edge, beyond: f64) -> bool
    ensures { result ≡ far b s beyond }
{
    let start = s.start;
    let along = s.along;
    let w = b.less(start);
    let all = Span {
        low: 0.000001,
        high: 0.999999,
    };
    if least_off(w, along, all) > beyond {
        return true;
    }
    let u = inside(w.dot(along) / s.squared);
    let d = least_off(w, along, u);
    (u.low > u.high) | (d > beyond)
}
