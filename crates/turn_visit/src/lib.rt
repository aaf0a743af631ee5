// The walk of one group over the chained pairs, in the work area.
#![tactic(auto)]

ghost use Rattle.std.specs.Prelude.{◌+◌};
ghost use Rattle.turn_walk.specs.Group.{Rooted, GroupWalked, Stage, VisitAt, visit_of};

use turn_meet::{Tally, meet_row, start_group};
use turn_neighbours::{next_link, other_row, wanted};
use turn_walk::Regions;

// The neighbours of row `x` are met, pairs in recorded order.
fn visit_row(w: &mut [u64], regions: Regions, before: Tally, x: usize) -> Tally
    requires { VisitAt regions.uses regions.rows before.found before.against x w.old }
    ensures { Stage regions.uses regions.rows before.found result.found result.against (before.against + regions.uses) w.old w.new
        (visit_of regions.uses regions.rows before.found before.against x w.old) }
{
    let c = w[regions.colours() + x];
    let mut tally = before;
    let mut p = w[regions.heads() + x] as usize;
    while p != 0 {
        let i = p - 1;
        let y = other_row(w, regions, x, i);
        let want = wanted(w, regions, i, c);
        p = next_link(w, regions, x, p);
        tally = meet_row(w, regions, tally, y, want);
    }
    tally
}

// The rows of one group are walked breadth first from its root, after `against` contradictions in the groups before it.
pub fn walk_group(w: &mut [u64], regions: Regions, root: usize, against: u64) -> Tally
    requires { Rooted regions.uses regions.rows root against w.old }
    ensures { GroupWalked regions.uses regions.rows root against result.found result.against w.old w.new }
{
    start_group(w, regions, root);
    let queue = regions.queue();
    let mut tally = Tally {
        found: 1,
        against: against,
    };
    let mut done = 0;
    while done < tally.found {
        let x = w[queue + done] as usize;
        tally = visit_row(w, regions, tally, x);
        done += 1;
    }
    tally
}
