// The loose vertices put in the order of the search, with the boxes of their blocks.

ghost use Rattle.stitch_count.specs.SearchOrder.{RankReady, Ranked, OrderReady, OrderMade};

use stitch_splits::EDGE_STEP;

// For each of the `count` loose vertices at `list` a word of its place there and itself is written from `order` on.
fn rank_vertices(w: &mut [u64], v: usize, list: usize, count: usize, order: usize)
    requires { RankReady v list count order w.old }
    ensures { Ranked list count order w.old w.new }
{
    for j in 0..count {
        w[order + j] = j as u64 * EDGE_STEP + w[list + j];
    }
}

// The words of the loose vertices are put in the order of the search from `order` on, and the boxes of their blocks from `boxes` on; the answer is the height
// of the boxes' tree. Without a loose vertex there is none.
pub fn order_loose(
    positions: &[f32],
    w: &mut [u64],
    v: usize,
    list: usize,
    count: usize,
    order: usize,
    boxes: usize,
) -> u32
    requires { OrderReady positions.now v list count order boxes w.old }
    ensures { OrderMade positions.now list count order boxes w.old w.new result }
{
    if count == 0 {
        return 0;
    }
    rank_vertices(w, v, list, count, order);
    stitch_tree::make_tree(positions, w, v, order, count, boxes)
}
