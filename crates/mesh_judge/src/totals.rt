// What the accepted rows have together.

ghost use Rattle.std.specs.Prelude.{◌≡◌, get_or, ◌+◌};
ghost use Rattle.body_rows.specs.Rows.{row_at};
ghost use Rattle.mesh_judge.specs.Totals.{RowAddable, totals_with, Totalled, TotalsReady};

// How many rows are accepted, and how many vertices and indices they have.
#[derive(Clone, Copy, Default)]
pub struct Totals {
    pub rows: usize,
    pub vertices: usize,
    pub indices: usize,
}

// The totals with row k, if its decision isn't 0.
fn add_row(rows: &[u32], w: &[u64], at: usize, k: usize, t: Totals) -> Totals
    requires { RowAddable rows.now w.now at k t }
    ensures { result ≡ totals_with (get_or w.now (at + k) 0) (row_at rows.now k) t }
{
    if w[at + k] == 0 {
        return t;
    }
    Totals {
        rows: t.rows + 1,
        vertices: t.vertices + body_rows::vertices(rows, k) as usize,
        indices: t.indices + body_rows::indices(rows, k) as usize,
    }
}

// The totals of the accepted rows; the decisions stand from `at` on.
pub fn accepted_totals(rows: &[u32], w: &[u64], at: usize) -> Totals
    requires { TotalsReady rows.now w.now at }
    ensures { Totalled rows.now w.now at result }
{
    let m = body_rows::row_count(rows);
    let mut t = Totals::default();
    for k in 0..m {
        t = add_row(rows, w, at, k, t);
    }
    t
}
