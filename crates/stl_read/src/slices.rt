// The row, the normals and the indices of what was read.

ghost use Rattle.std.specs.Prelude.{◌≤◌, ◌<◌, length};
ghost use Rattle.body_rows.specs.Body.{row_width};
ghost use Rattle.slice_append.specs.Appended.{Appended};
ghost use Rattle.stl_definition.specs.Read.{numbers_from};
ghost use Rattle.stl_definition.specs.Write.{one_row};

use slice_append::put;

// One row of shell, face and bin 0, with n vertices and n indices, is written to the front of `rows`.
pub fn put_row(rows: &mut [u32], n: u32)
    requires { row_width ≤ length rows.old }
    ensures { Appended 0 (one_row n n) rows.old rows.new }
{
    put(rows, 0, &[0, 0, 0, n, n, 0]);
}

// The first n indices become 0, 1, 2 and so on.
pub fn put_numbers(indices: &mut [u32], n: usize)
    requires n_in_bounds { n ≤ length indices.old }
    requires n_bound { n < 4294967296 }
    ensures { Appended 0 (numbers_from 0 n) indices.old indices.new }
{
    for k in 0..n {
        indices[k] = k as u32;
    }
}
