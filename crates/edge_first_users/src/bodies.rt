// The words of all uses of a body, row by row in 01's order.

ghost use Rattle.std.specs.Prelude.{◌≡◌, map, length, drop, replicate};
ghost use Rattle.std.proofs.lemmas.List.Edits.{sets};
ghost use Rattle.body_rows.specs.Body.{rows_of};
ghost use Rattle.edge_uses.specs.Named.{use_name, use_run, row_numbers, row_uses, BodyReady, NamesReady, RowsRoom};

use edge_use_words::{name_row, run_row};
use slice_fill::fill;

// The names of the uses of all rows: a number of row k's shell stands at `shells` + k.
pub fn name_uses(
    rows: &[u32],
    indices: &[u32],
    w: &mut [u64],
    points: usize,
    shells: usize,
    at: usize,
)
    requires { NamesReady rows.now indices.now w.old points shells at }
    ensures { w.new ≡ sets w.old at
        (map use_name (row_uses (drop shells w.old) 0 (drop points w.old) (rows_of rows.now) indices.now)) }
{
    let n = body_rows::row_count(rows);
    let mut v = points;
    let mut i = 0;
    for k in 0..n {
        let vertices = body_rows::vertices(rows, k) as usize;
        let end = i + body_rows::indices(rows, k) as usize;
        let shell = w[shells + k];
        name_row(indices, w, v, vertices, i, end, at, shell);
        v += vertices;
        i = end;
    }
}

// The ways the uses of all rows run.
pub fn list_runs(rows: &[u32], indices: &[u32], w: &mut [u64], points: usize, at: usize)
    requires { BodyReady rows.now indices.now w.old points at }
    ensures { w.new ≡ sets w.old at
        (map use_run (row_uses (replicate (length (rows_of rows.now)) 0) 0 (drop points w.old) (rows_of rows.now)
        indices.now)) }
{
    let n = body_rows::row_count(rows);
    let mut v = points;
    let mut i = 0;
    for k in 0..n {
        let vertices = body_rows::vertices(rows, k) as usize;
        let end = i + body_rows::indices(rows, k) as usize;
        run_row(indices, w, v, vertices, i, end, at);
        v += vertices;
        i = end;
    }
}

// The row of each use.
pub fn list_rows(rows: &[u32], w: &mut [u64], at: usize)
    requires { RowsRoom rows.now w.old at }
    ensures { w.new ≡ sets w.old at (row_numbers 0 (rows_of rows.now)) }
{
    let n = body_rows::row_count(rows);
    let mut i = at;
    for k in 0..n {
        let end = i + body_rows::indices(rows, k) as usize;
        fill(w, i, end, k as u64);
        i = end;
    }
}
