// The boxes of a tree in words of the work area: node k has six words; leaf i is node `leaves` + i, and the halves of node k are nodes 2 k and 2 k + 1.

ghost use Rattle.std.specs.Prelude.{◌≡◌, ◌+◌, ◌≤◌, length};
ghost use Rattle.stitch_tree.specs.Nodes.{
  span_at,
  box_at,
  SpanPut,
  BoxPut,
  LeafReady,
  LeafBounded,
  LeavesReady,
  LeavesBounded,
  NodeReady,
  NodeBounded,
  NodesReady,
  NodesBounded,
};

use crate::LEAF;
use crate::points::bound_points;
use float_spans::Span;
use float_steps::{bits_of_f64, f64_of_bits};
use stitch_boxes::Bounds;

// A box has so many words.
const BOX: usize = 6;

// The span whose ends stand at k.
fn span_at(w: &[u64], k: usize) -> Span
    requires { k + 2 ≤ length w.now }
    ensures { result ≡ span_at w.now k }
{
    Span {
        low: f64_of_bits(w[k]),
        high: f64_of_bits(w[k + 1]),
    }
}

// The box whose ends stand at k.
pub fn box_at(w: &[u64], k: usize) -> Bounds
    requires { k + 6 ≤ length w.now }
    ensures { result ≡ box_at w.now k }
{
    Bounds {
        x: span_at(w, k),
        y: span_at(w, k + 2),
        z: span_at(w, k + 4),
    }
}

// The ends of a span are written at k.
fn put_span(w: &mut [u64], k: usize, low: f64, high: f64)
    requires { k + 2 ≤ length w.old }
    ensures { SpanPut k (record { low = low; high = high }) w.old w.new }
{
    let a = bits_of_f64(low);
    let b = bits_of_f64(high);
    w[k] = a;
    w[k + 1] = b;
}

// The ends of b are written at k.
fn put_box(w: &mut [u64], k: usize, b: Bounds)
    requires { k + 6 ≤ length w.old }
    ensures { BoxPut k b w.old w.new }
{
    let x = b.x;
    let y = b.y;
    let z = b.z;
    put_span(w, k, x.low, x.high);
    put_span(w, k + 2, y.low, y.high);
    put_span(w, k + 4, z.low, z.high);
}

// The box of leaf i of the n words from `order` on is written at k; one without a word holds nothing.
fn bound_leaf(
    positions: &[f32],
    w: &mut [u64],
    v: usize,
    order: usize,
    n: usize,
    i: usize,
    k: usize,
)
    requires { LeafReady positions.now v order n i k w.old }
    ensures { LeafBounded positions.now order n i k w.old w.new }
{
    let first = LEAF * i;
    let end = n.min(first + LEAF);
    let b = bound_points(positions, w, v, order + first, order + end);
    put_box(w, k, b);
}

// The boxes of the leaves.
pub fn bound_leaves(
    positions: &[f32],
    w: &mut [u64],
    v: usize,
    order: usize,
    n: usize,
    boxes: usize,
    leaves: usize,
)
    requires { LeavesReady positions.now v order n boxes leaves w.old }
    ensures { LeavesBounded positions.now order n boxes leaves w.old w.new }
{
    for i in 0..leaves {
        bound_leaf(positions, w, v, order, n, i, boxes + BOX * (leaves + i));
    }
}

// The box of node k is that of its halves.
fn bound_node(w: &mut [u64], boxes: usize, k: usize)
    requires { NodeReady boxes k w.old }
    ensures { NodeBounded boxes k w.old w.new }
{
    let a = box_at(w, boxes + BOX * (2 * k));
    let b = box_at(w, boxes + BOX * (2 * k + 1));
    put_box(w, boxes + BOX * k, a.hull(b));
}

// The boxes of the nodes above the leaves, the last first.
pub fn bound_nodes(w: &mut [u64], boxes: usize, leaves: usize)
    requires { NodesReady boxes leaves w.old }
    ensures { NodesBounded boxes leaves w.old w.new }
{
    for k in (1..leaves).rev() {
        bound_node(w, boxes, k);
    }
}
