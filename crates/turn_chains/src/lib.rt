// Pairs of rows chained by row in the work area.
#![tactic(auto)]

ghost use Rattle.std.specs.Prelude.{◌≡◌, ◌+◌, ◌*◌};
ghost use Rattle.turn_walk.specs.Uses.{far};
ghost use Rattle.turn_walk.specs.Area.{uses_of};
ghost use Rattle.turn_walk.specs.Chains.{Chainable, UseAt, PairAt, ChainNext, Chained, linked};

use edge_uses::EQUAL_ENDS;
use turn_walk::Regions;

// All chains become empty.
fn clear_heads(w: &mut [u64], regions: Regions)
    requires { Chainable regions.uses regions.rows w.old }
    ensures { Chained regions.uses regions.rows regions.uses w.old w.new }
{
    let heads = regions.heads();
    slice_fill::fill(w, heads, regions.queue(), 0);
}

// The row of the first use of the edge of use `i`.
pub fn far_row(w: &[u64], regions: Regions, i: usize) -> usize
    requires { UseAt regions.uses regions.rows i w.now }
    ensures { result ≡ far (uses_of regions.uses w.now) i }
{
    let first = w[i] as usize;
    w[regions.use_rows() + first] as usize
}

// The pair of use `i` goes first in the chains of its own row `a` and of the first use's row `b`.
fn link_pair(w: &mut [u64], regions: Regions, i: usize, a: usize, b: usize)
    requires { PairAt regions.uses regions.rows i a b w.old }
    ensures { w.new ≡ linked regions.uses i a b w.old }
{
    let heads = regions.heads();
    let after_own = w[heads + a];
    let after_far = w[heads + b];
    w[regions.own_links() + i] = after_own;
    w[regions.far_links() + i] = after_far;
    w[heads + a] = i as u64 + 1;
    w[heads + b] = i as u64 + 1;
}

// Use `i` goes into the chains, where those after it are in them: no pair if its ends are equal or both uses are on one row.
fn chain_use(w: &mut [u64], regions: Regions, i: usize)
    requires { ChainNext regions.uses regions.rows i w.old }
    ensures { Chained regions.uses regions.rows i w.old w.new }
{
    if w[regions.runs() + i] == EQUAL_ENDS {
        return;
    }
    let a = w[regions.use_rows() + i] as usize;
    let b = far_row(w, regions, i);
    if a == b {
        return;
    }
    link_pair(w, regions, i, a, b);
}

// The pairs of the uses, chained by row. From the last use to the first, so that each chain comes in recorded order.
pub fn chain_pairs(w: &mut [u64], regions: Regions)
    requires { Chainable regions.uses regions.rows w.old }
    ensures { Chained regions.uses regions.rows 0 w.old w.new }
{
    clear_heads(w, regions);
    for i in (0..regions.uses).rev() {
        chain_use(w, regions, i);
    }
}
