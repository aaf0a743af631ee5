// The vertices and indices of all rows, and the words of the work area that they need.

ghost use Rattle.std.specs.Prelude.{◌≡◌};
ghost use Rattle.lists.specs.Lists.{sum_of};
ghost use Rattle.body_rows.specs.Body.{all_indices, all_vertices, rows_of, work_needed};
ghost use Rattle.body_rows.specs.Rows.{Column, Total, WholeRows, column};

use crate::rows::{number, row_count};

// The sum of column j over all rows.
fn total(rows: &[u32], j: usize) -> usize
    requires { Column rows.now j }
    ensures { Total (sum_of (column j) (rows_of rows.now)) result }
{
    let n = row_count(rows);
    let mut sum = 0usize;
    for k in 0..n {
        sum += number(rows, k, j) as usize;
    }
    sum
}

// V: the vertices of all rows.
pub fn total_vertices(rows: &[u32]) -> usize
    requires { WholeRows rows.now }
    ensures { Total (all_vertices (rows_of rows.now)) result }
{
    total(rows, 3)
}

// I: the indices of all rows.
pub fn total_indices(rows: &[u32]) -> usize
    requires { WholeRows rows.now }
    ensures { Total (all_indices (rows_of rows.now)) result }
{
    total(rows, 4)
}

// How many words of the work area a call needs.
pub fn work_needed(rows: &[u32]) -> usize
    requires { WholeRows rows.now }
    ensures { result ≡ work_needed (rows_of rows.now) }
{
    16 * total_indices(rows) + 16 * row_count(rows) + 4 * total_vertices(rows)
}
