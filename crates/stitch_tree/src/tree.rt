// The tree over the words of points: its height, the words ordered, and the boxes of its nodes.

ghost use Rattle.std.specs.Prelude.{◌≤◌};
ghost use Rattle.stitch_tree.specs.Trees.{HeightOf, TreeReady, TreeMade};

use crate::LEAF;
use crate::boxes::{bound_leaves, bound_nodes};
use crate::order::order_points;

// The least height of a tree whose leaves have room for n words.
fn height(n: usize) -> u32
    requires { n ≤ 786432 }
    ensures { HeightOf n result }
{
    let mut h = 0u32;
    let mut room = LEAF;
    while room < n {
        room = 2 * room;
        h += 1;
    }
    h
}

// The n words from `order` on are put into another order, and the boxes of the tree over them are written from `boxes` on; the answer is its height.
pub fn make_tree(
    positions: &[f32],
    w: &mut [u64],
    v: usize,
    order: usize,
    n: usize,
    boxes: usize,
) -> u32
    requires { TreeReady positions.now v order n boxes w.old }
    ensures { TreeMade positions.now v order n boxes w.old w.new result }
{
    let top = height(n);
    let leaves = float_steps::power(top as u64) as usize;
    order_points(positions, w, v, order, n, leaves);
    bound_leaves(positions, w, v, order, n, boxes, leaves);
    bound_nodes(w, boxes, leaves);
    top
}
