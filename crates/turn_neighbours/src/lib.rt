// What the pair of a use leads to on the walk of a group: the row across it, the colour wanted there, and the next pair of a row.
#![tactic(auto)]

ghost use Rattle.std.specs.Prelude.{◌≡◌, cond, ◌-◌};
ghost use Rattle.turn_walk.specs.Walk.{opposite};
ghost use Rattle.turn_walk.specs.Uses.{agrees, across};
ghost use Rattle.turn_walk.specs.Area.{uses_of};
ghost use Rattle.turn_walk.specs.Chains.{UseAt, LinkAt, link_from};
ghost use Rattle.turn_walk.specs.Group.{WantAt};

use turn_chains::far_row;
use turn_colours::opposite_colour;
use turn_walk::Regions;

// The colour that a row of colour `c` wants across the pair of use `i`: its own if the two uses run oppositely.
pub fn wanted(w: &[u64], regions: Regions, i: usize, c: u64) -> u64
    requires { WantAt regions.uses regions.rows i c w.now }
    ensures { result ≡ cond (agrees (uses_of regions.uses w.now) i) c (opposite c) }
{
    let runs = regions.runs();
    let first = w[i] as usize;
    if w[runs + first] == w[runs + i] {
        return opposite_colour(c);
    }
    c
}

// The row to which the pair of use `i` leads from row `x`.
pub fn other_row(w: &[u64], regions: Regions, x: usize, i: usize) -> usize
    requires { UseAt regions.uses regions.rows i w.now }
    ensures { result ≡ (across (uses_of regions.uses w.now) x i).row }
{
    let a = w[regions.use_rows() + i] as usize;
    if a == x {
        return far_row(w, regions, i);
    }
    a
}

// The link after `p` in the chain of row `x`.
pub fn next_link(w: &[u64], regions: Regions, x: usize, p: usize) -> usize
    requires { LinkAt regions.uses regions.rows x p w.now }
    ensures { result ≡ link_from (uses_of regions.uses w.now) x p (regions.uses - p) }
{
    let i = p - 1;
    let a = w[regions.use_rows() + i] as usize;
    if a == x {
        return w[regions.own_links() + i] as usize;
    }
    w[regions.far_links() + i] as usize
}
