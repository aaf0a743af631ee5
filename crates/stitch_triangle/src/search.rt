// The loose vertices found on an edge: block after block of them passed over or tried.

ghost use Rattle.std.specs.Prelude.{◌≡◌, ◌+◌, ◌*◌, ◌/◌, ◌%◌, ◌^◌, ◌<◌, ◌≤◌, length, get_or, take, drop, [], ◌∷◌};
ghost use Rattle.patch_geometry.specs.Geometry.{point_at};
ghost use Rattle.stitch_sag.specs.Beyond.{Ruled};
ghost use Rattle.stitch_boxes.specs.Boxes.{far};
ghost use Rattle.stitch_tree.specs.Nodes.{box_at};
ghost use Rattle.stitch_triangle.specs.Triangle.{block_of, BlockEnd, RaiseReady, Raised};
ghost use Rattle.stitch_triangle.specs.ByFinder.{PointReady, TryReady, FoundIn, BlockReady, BoxReady, FindOn};

use crate::finding::found_on;
use crate::placing::place_on;
use stitch_entries::append_pair;
use stitch_projection::Edge;
use stitch_splits::{EDGE_STEP, Finder, Sides, side_of};

// How many words a block of the search has, which is a leaf of the tree.
const BLOCK: usize = 8;

// How many levels of the tree the search leaves out at its top.
const TOP_LEVELS: u32 = 2;

// How many words a box has.
const BOX: usize = 6;

// The edge that found a vertex stands above its place and itself, in a word of a pair.
const FINDER_STEP: u64 = 274877906944;

// How many points were found, and how many pairs there are.
#[derive(Clone, Copy)]
pub struct Tally {
    pub found: u64,
    pub placed: usize,
}

// The vertex of word j.
fn vertex_at(w: &[u64], order: usize, j: usize) -> usize
    requires { order + j < length w.now }
    ensures { result ≡ get_or w.now (order + j) 0 % 262144 }
{
    (w[order + j] % EDGE_STEP) as usize
}

// Whether the vertex of word j may be within the sag of an edge.
fn may_split(positions: &[f32], w: &[u64], s: Edge, f: Finder, j: usize) -> bool
    requires { PointReady positions.now f j w.now }
    ensures { Ruled f.beyond s (point_at positions.now (get_or w.now (f.order + j) 0 % 262144)) result }
{
    let g = vertex_at(w, f.order, j);
    let r = patch_geometry::vertex(positions, 3 * g);
    stitch_sag::may_hit(s, r, f.beyond)
}

// The vertex of word j is tried on edge e: if it is found there it is counted, and if it is placed its pair goes behind the others.
fn try_vertex(
    positions: &[f32],
    w: &mut [u64],
    s: Sides,
    f: Finder,
    j: usize,
    e: u64,
    t: Tally,
) -> Tally
    requires { TryReady positions.now f j e t w.old }
    ensures { FoundIn positions.now s f e t (get_or w.old (f.order + j) 0 ∷ []) w.old w.new result }
{
    let o = w[f.order + j];
    let g = vertex_at(w, f.order, j);
    let r = patch_geometry::vertex(positions, 3 * g);
    let name = w[g];
    let here = found_on(s, e, name, r, f.sag, f.beyond);
    if here {
        match place_on(s, r) {
            None => {
                return Tally {
                    found: t.found + 1,
                    placed: t.placed,
                };
            }
            Some(p) => {
                append_pair(w, f.at, f.ts, t.placed, p.e, p.t, e * FINDER_STEP + o);
                return Tally {
                    found: t.found + 1,
                    placed: t.placed + 1,
                };
            }
        }
    }
    t
}

// Where the block that begins at place `from` ends.
fn block_end(from: usize, count: usize) -> usize
    requires { from ≤ count }
    ensures { BlockEnd from count result }
{
    from + BLOCK.min(count - from)
}

// The vertices of the block at place `from` that may be within the sag of edge e are tried on it.
fn try_block(
    positions: &[f32],
    w: &mut [u64],
    s: Sides,
    f: Finder,
    from: usize,
    e: u64,
    before: Tally,
) -> Tally
    requires { BlockReady positions.now f from e before w.old }
    ensures { FoundIn positions.now s f e before (block_of w.old f.order f.count from) w.old w.new result }
{
    let tried = side_of(s, e);
    let end = block_end(from, f.count);
    let mut t = before;
    for j in from..end {
        if may_split(positions, w, tried.edge, f, j) {
            t = try_vertex(positions, w, s, f, j, e, t);
        }
    }
    t
}

// Whether the points of 2 ^ height leaves from `leaf` on are all far from an edge.
fn is_far(w: &[u64], s: Edge, f: Finder, leaf: usize, height: u32) -> bool
    requires { BoxReady f leaf height w.now }
    ensures { result ≡ far (box_at w.now (f.boxes + 6 * ((2 ^ f.top + leaf) / 2 ^ height))) s f.beyond }
{
    let leaves = float_steps::power(f.top as u64) as usize;
    let node = (leaves + leaf) >> height;
    let b = stitch_tree::box_at(w, f.boxes + BOX * node);
    stitch_boxes::far(b, s, f.beyond)
}

// The height of the next node to look at, once all leaves before `leaf` are done.
fn raised(leaf: usize, height: u32, top: u32) -> u32
    requires { RaiseReady height top }
    ensures { Raised leaf height top result }
{
    for h in height..top {
        if (leaf >> h) % 2 == 1 {
            return h;
        }
    }
    top
}

// The height that the search begins at: the boxes of the tree's top are far from hardly any edge.
fn first_height(top: u32) -> u32
    ensures { result ≤ top }
{
    top.saturating_sub(TOP_LEVELS)
}

// All loose vertices that may be within the sag of edge e, if it is open, are tried on it.
pub fn find_all(
    positions: &[f32],
    w: &mut [u64],
    s: Sides,
    f: Finder,
    e: u64,
    before: Tally,
) -> Tally
    requires { FindOn positions.now s f e before w.old }
    ensures { FoundIn positions.now s f e before (take f.count (drop f.order w.old)) w.old w.new result }
{
    let side = side_of(s, e);
    let mut t = before;
    if !side.is_open {
        return t;
    }
    let highest = first_height(f.top);
    let mut leaf = 0usize;
    let mut height = highest;
    while BLOCK * leaf < f.count {
        let passed = is_far(w, side.edge, f, leaf, height);
        if passed {
            leaf += float_steps::power(height as u64) as usize;
            height = raised(leaf, height, highest);
        } else if height > 0 {
            height -= 1;
        } else {
            t = try_block(positions, w, s, f, BLOCK * leaf, e, t);
            leaf += 1;
            height = raised(leaf, 0, highest);
        }
    }
    t
}
