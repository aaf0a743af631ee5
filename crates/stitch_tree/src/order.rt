// The words of points put into an order in which blocks of them lie close together. Words are only swapped, so that what is computed here decides nothing but
// the speed.

ghost use Rattle.std.specs.Prelude.{◌+◌, ◌<◌, ◌≤◌};
ghost use Rattle.stitch_tree.specs.Ordering.{Permuted, Stretch, PartReady, Parted, BlocksReady, OrderReady};

use crate::LEAF;
use crate::points::{bound_points, coordinate};
use float_spans::Span;
use stitch_boxes::Bounds;

// A stretch is parted at most so often: then the middle of its span is one of its ends.
const ROUNDS: usize = 64;

// The span of a coordinate of the points from `from` up to `to`.
fn extent(positions: &[f32], w: &[u64], v: usize, from: usize, to: usize, axis: usize) -> Span
    requires { PartReady positions.now v from to axis w.now }
{
    let mut s = Span::empty();
    for j in from..to {
        s = s.hull(Span::one(coordinate(positions, w, v, j, axis)));
    }
    s
}

// The axis along which a box is widest.
fn widest(b: Bounds) -> usize
    ensures { result < 3 }
{
    let x = b.x;
    let y = b.y;
    let z = b.z;
    let dx = x.high - x.low;
    let dy = y.high - y.low;
    let dz = z.high - z.low;
    if (dx >= dy) & (dx >= dz) {
        return 0;
    }
    if dy >= dz {
        return 1;
    }
    2
}

// 1 if x is below the pivot, else 0: a number that is added and not a branch, which a processor could not foresee.
fn step_below(x: f64, pivot: f64) -> usize
    ensures { result ≤ 1 }
{
    usize::from(x < pivot)
}

// The words whose points are below the pivot come first; the answer is where the others begin.
fn part(
    positions: &[f32],
    w: &mut [u64],
    v: usize,
    from: usize,
    to: usize,
    axis: usize,
    pivot: f64,
) -> usize
    requires { PartReady positions.now v from to axis w.old }
    ensures { Parted from to w.old w.new result }
{
    let mut cut = from;
    for j in from..to {
        let step = step_below(coordinate(positions, w, v, j, axis), pivot);
        w.swap(cut, j);
        cut += step;
    }
    cut
}

// The words are swapped until no point from `middle` on is below one before it along the axis, or for so many rounds.
fn settle(
    positions: &[f32],
    w: &mut [u64],
    v: usize,
    from: usize,
    to: usize,
    middle: usize,
    axis: usize,
)
    requires { PartReady positions.now v from to axis w.old }
    ensures { Permuted from to w.old w.new }
{
    let mut a = from;
    let mut b = to;
    for _ in 0..ROUNDS {
        let s = extent(positions, w, v, a, b, axis);
        if s.low >= s.high {
            return;
        }
        let cut = part(positions, w, v, a, b, axis, 0.5 * s.low + 0.5 * s.high);
        if middle < cut {
            b = cut;
        } else {
            a = cut;
        }
    }
}

// The words of a block are halved at `middle`, along the axis on which their points spread most.
fn halve(positions: &[f32], w: &mut [u64], v: usize, from: usize, to: usize, middle: usize)
    requires { Stretch positions.now v from to w.old }
    ensures { Permuted from to w.old w.new }
{
    let axis = widest(bound_points(positions, w, v, from, to));
    settle(positions, w, v, from, to, middle, axis);
}

// Each block of twice `half` of the n words is halved; the last may have fewer.
fn halve_blocks(positions: &[f32], w: &mut [u64], v: usize, order: usize, n: usize, half: usize)
    requires { BlocksReady positions.now v order n half w.old }
    ensures { Permuted order (order + n) w.old w.new }
{
    let mut a = 0usize;
    while a + half < n {
        let b = n.min(a + 2 * half);
        halve(positions, w, v, order + a, order + b, order + a + half);
        a += 2 * half;
    }
}

// The n words are ordered: all halved, then their halves, down to the leaves.
pub fn order_points(
    positions: &[f32],
    w: &mut [u64],
    v: usize,
    order: usize,
    n: usize,
    leaves: usize,
)
    requires { OrderReady positions.now v order n leaves w.old }
    ensures { Permuted order (order + n) w.old w.new }
{
    let mut half = LEAF / 2 * leaves;
    while half >= LEAF {
        halve_blocks(positions, w, v, order, n, half);
        half = half / 2;
    }
}
