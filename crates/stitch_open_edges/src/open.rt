// Open edges: a flag for each use of an edge, over the whole body.

ghost use Rattle.std.specs.Prelude.{◌≡◌};
ghost use Rattle.edge_uses.specs.FirstUsers.{UsersReady};
ghost use Rattle.edge_uses.specs.Area.{Layable};
ghost use Rattle.stitch_loose_points.specs.Open.{Marked, Joinable, BodyJoined, UsesCounted, count_in, flag_in, FlagReady, FlagsReady, FlagsSet};

use edge_uses::{COUNTS, EQUAL_ENDS, RUNS, RUNS_AFTER_FIRSTS};
use join_definition::JOIN_WORDS;
use join_points::vertices::Rule;

// The v vertices are joined by key, and behind their table each of m rows gets shell 0.
fn join_body(positions: &[f32], w: &mut [u64], v: usize, m: usize)
    requires { Joinable positions.now v m w.old }
    ensures { BodyJoined positions.now v m w.old w.new }
{
    join_points::vertices::join_points(Rule::Key, positions, w, v);
    slice_fill::fill(w, JOIN_WORDS * v, JOIN_WORDS * v + m, 0);
}

// The uses are named at `at`, and behind their names come their first uses, how many uses each edge has, and their runs.
fn count_edges(
    rows: &[u32],
    indices: &[u32],
    w: &mut [u64],
    points: usize,
    shells: usize,
    at: usize,
)
    requires { UsersReady rows.now indices.now w.old points shells at }
    ensures { UsesCounted rows.now indices.now w.old points shells at w.new }
{
    let n = indices.len();
    edge_first_users::first_users(rows, indices, w, points, shells, at);
    edge_use_counts::count_uses(w, at + n, at + COUNTS * n, n);
    edge_first_users::list_runs(rows, indices, w, points, at + RUNS * n);
}

// How many uses the edge of use i has.
fn count_at(w: &[u64], at: usize, n: usize, i: usize) -> u64
    requires { FlagReady w.now at n i }
    ensures { result ≡ count_in w.now at n i }
{
    let first = w[at + i] as usize;
    w[at + n + first]
}

// The flag of use i: 1 if its ends differ and its edge has no other use, else 0.
#[tactic(auto, unfolding(stitch_loose_points::specs::Open::flag_by))]
fn flag_at(w: &[u64], at: usize, n: usize, i: usize) -> u64
    requires { FlagReady w.now at n i }
    ensures { result ≡ flag_in w.now at n i }
{
    let is_open = w[at + RUNS_AFTER_FIRSTS * n + i] != EQUAL_ENDS && count_at(w, at, n, i) == 1;
    u64::from(is_open)
}

// The run of each of n uses becomes its flag: first uses stand at `at`, counts and runs behind them.
fn mark_uses(w: &mut [u64], at: usize, n: usize)
    requires { FlagsReady w.old at n }
    ensures { FlagsSet w.old at n w.new }
{
    for i in 0..n {
        w[at + RUNS_AFTER_FIRSTS * n + i] = flag_at(w, at, n, i);
    }
}

// The vertices are joined by key and each use of an edge gets a flag: 1 if the edge is open, else 0.
pub fn mark_open(
    rows: &[u32],
    positions: &[f32],
    indices: &[u32],
    w: &mut [u64],
    v: usize,
    m: usize,
)
    requires { Layable rows.now positions.now indices.now w.old v m }
    ensures { Marked rows.now positions.now indices.now v m w.old w.new }
{
    let n = indices.len();
    join_body(positions, w, v, m);
    count_edges(
        rows,
        indices,
        w,
        v,
        JOIN_WORDS * v,
        JOIN_WORDS * v + JOIN_WORDS * m,
    );
    mark_uses(w, JOIN_WORDS * v + JOIN_WORDS * m + n, n);
}
