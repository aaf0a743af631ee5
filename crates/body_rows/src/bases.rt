// Where each row's vertices and indices start.

ghost use Rattle.body_rows.specs.Rows.{ColumnWords, Starts, WordsFit, column_before, indices_before, vertices_before};

use crate::rows::{number, row_count};

// Word k of w becomes the sum of column j over the rows before row k.
fn bases(rows: &[u32], w: &mut [u64], j: usize)
    requires { ColumnWords rows.now w.old j }
    ensures { Starts (column_before j) rows.now w.old w.new }
{
    let n = row_count(rows);
    let mut base = 0u64;
    for k in 0..n {
        w[k] = base;
        base += number(rows, k, j) as u64;
    }
}

// Word k of w becomes the vertex that row k starts at.
pub fn vertex_bases(rows: &[u32], w: &mut [u64])
    requires { WordsFit rows.now w.old }
    ensures { Starts vertices_before rows.now w.old w.new }
{
    bases(rows, w, 3);
}

// Word k of w becomes the index that row k starts at.
pub fn index_bases(rows: &[u32], w: &mut [u64])
    requires { WordsFit rows.now w.old }
    ensures { Starts indices_before rows.now w.old w.new }
{
    bases(rows, w, 4);
}
