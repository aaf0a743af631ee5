// A row met on the walk of a group, and the row that it starts from: queued and coloured if it has no colour yet.
#![tactic(auto)]

ghost use Rattle.std.specs.Prelude.{◌+◌};
ghost use Rattle.turn_walk.specs.Walk.{meet};
ghost use Rattle.turn_walk.specs.Group.{RootAt, Started, Stage, MeetAt, walk_of};

use turn_walk::{PLAIN, Regions, UNVISITED};

// The rows found so far, and how often a pair that contradicts colours was met.
#[derive(Clone, Copy)]
pub struct Tally {
    pub found: usize,
    pub against: u64,
}

// Row `x` is met where colour `c` is wanted.
pub fn meet_row(w: &mut [u64], regions: Regions, tally: Tally, x: usize, c: u64) -> Tally
    requires { MeetAt regions.uses regions.rows tally.found tally.against x c w.old }
    ensures { Stage regions.uses regions.rows tally.found result.found result.against (tally.against + 1) w.old w.new
        (meet x c (walk_of regions.uses regions.rows tally.found tally.against w.old)) }
{
    let queue = regions.queue();
    let colours = regions.colours();
    let had = w[colours + x];
    if had == UNVISITED {
        w[queue + tally.found] = x as u64;
        w[colours + x] = c;
        return Tally {
            found: tally.found + 1,
            ..tally
        };
    }
    if had == c {
        return tally;
    }
    Tally {
        against: tally.against + 1,
        ..tally
    }
}

// A group's root is the first row of its queue, and stays as it is.
pub fn start_group(w: &mut [u64], regions: Regions, root: usize)
    requires { RootAt regions.uses regions.rows root w.old }
    ensures { Started regions.uses regions.rows root w.old w.new }
{
    let queue = regions.queue();
    let colours = regions.colours();
    w[queue] = root as u64;
    w[colours + root] = PLAIN;
}
