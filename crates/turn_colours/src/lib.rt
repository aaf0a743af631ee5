// The colours of rows in the work area, and a group's colours inverted.
#![tactic(auto)]

ghost use Rattle.std.specs.Prelude.{◌≡◌, ◌+◌, ◌-◌, ◌*◌, ◌<◌, ◌≤◌, length, get_or};
ghost use Rattle.turn_walk.specs.Walk.{unvisited, opposite};
ghost use Rattle.turn_walk.specs.Area.{queue_at};
ghost use Rattle.turn_walk.specs.Group.{RowAt, Uncoloured, Invertible, GroupInverted, colours_of};

use turn_walk::{BOTH_COLOURS, Regions, UNVISITED};

// The colour of row `x`: 0 if no walk has met it, 1 if it stays as it is, 2 if it is reversed.
pub fn colour(w: &[u64], regions: Regions, x: usize) -> u64
    requires { RowAt regions.uses regions.rows x w.now }
    ensures { result ≡ get_or (colours_of regions.uses regions.rows w.now) x unvisited }
{
    w[regions.colours() + x]
}

// Row `k` of the queue.
pub fn queued(w: &[u64], regions: Regions, k: usize) -> usize
    requires { RowAt regions.uses regions.rows k w.now }
    ensures { result ≡ get_or w.now (queue_at regions.uses regions.rows + k) 0 }
{
    w[regions.queue() + k] as usize
}

// No row is visited.
pub fn uncolour(w: &mut [u64], regions: Regions)
    requires { 5 * regions.uses + 3 * regions.rows ≤ length w.old }
    ensures { Uncoloured regions.uses regions.rows w.old w.new }
{
    let colours = regions.colours();
    slice_fill::fill(w, colours, colours + regions.rows, UNVISITED);
}

// The other of the two colours.
pub fn opposite_colour(c: u64) -> u64
    requires { c ≤ 2 }
    ensures { result ≡ opposite c }
{
    BOTH_COLOURS - c
}

// The first `t` rows of the queue get the other colour.
pub fn invert_group(w: &mut [u64], regions: Regions, t: usize)
    requires { Invertible regions.uses regions.rows t w.old }
    ensures { GroupInverted regions.uses regions.rows t w.old w.new }
{
    let queue = regions.queue();
    let colours = regions.colours();
    for k in 0..t {
        let x = w[queue + k] as usize;
        w[colours + x] = opposite_colour(w[colours + x]);
    }
}
