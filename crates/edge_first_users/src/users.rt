// The first user of each use's edge, and all uses listed by first user, row and run.

ghost use Rattle.edge_uses.specs.FirstUsers.{UsersReady, FirstUsers};
ghost use Rattle.edge_uses.specs.Area.{UsesListed};

use crate::bodies::{list_rows, list_runs, name_uses};
use edge_uses::{ROWS, RUNS};

// The uses named by name_uses are joined: behind the n names at `at` come the first users, in a table of 4 n words.
pub fn first_users(
    rows: &[u32],
    indices: &[u32],
    w: &mut [u64],
    points: usize,
    shells: usize,
    at: usize,
)
    requires { UsersReady rows.now indices.now w.old points shells at }
    ensures { FirstUsers rows.now indices.now w.old points shells at w.new }
{
    let n = indices.len();
    name_uses(rows, indices, w, points, shells, at);
    join_points::words::join_words_at(w, at, n);
}

// The uses are named at `at`, and behind their names come their first uses, rows and runs.
pub fn list_uses(
    rows: &[u32],
    indices: &[u32],
    w: &mut [u64],
    points: usize,
    shells: usize,
    at: usize,
)
    requires { UsersReady rows.now indices.now w.old points shells at }
    ensures { UsesListed rows.now indices.now w.old points shells at w.new }
{
    let n = indices.len();
    first_users(rows, indices, w, points, shells, at);
    list_rows(rows, w, at + ROWS * n);
    list_runs(rows, indices, w, points, at + RUNS * n);
}
