// A row's numbers in the flat table.

ghost use Rattle.std.specs.Prelude.{[], ◌∷◌, ◌+◌, ◌*◌, ◌<◌, ◌≤◌, length};
ghost use Rattle.body_rows.specs.Body.{row_width, rows_of};
ghost use Rattle.body_rows.specs.Rows.{row_at};
ghost use Rattle.slice_append.specs.Appended.{Appended};

use body_rows::ROW_WIDTH;

// The numbers of row k are written to the table `out`, behind the k rows before it.
fn put_row(
    out: &mut [u32],
    k: usize,
    shell: u32,
    face: u32,
    outcome: u32,
    vertices: u32,
    indices: u32,
    bin: u32,
)
    requires { row_width * k + row_width ≤ length out.old }
    ensures { Appended (row_width * k) (shell ∷ face ∷ outcome ∷ vertices ∷ indices ∷ bin ∷ []) out.old out.new }
{
    let o = ROW_WIDTH * k;
    out[o] = shell;
    out[o + 1] = face;
    out[o + 2] = outcome;
    out[o + 3] = vertices;
    out[o + 4] = indices;
    out[o + 5] = bin;
}

// Row k of `rows` is written as row k of the table `out`, with the counts that it has now.
pub fn put_counts(rows: &[u32], k: usize, vertices: u32, indices: u32, out: &mut [u32])
    requires k_in_bounds { k < length (rows_of rows.now) }
    requires row_width_in_bounds { row_width * k + row_width ≤ length out.old }
    ensures { Appended (row_width * k) ((row_at rows.now k).shell ∷ (row_at rows.now k).face ∷ (row_at rows.now k).outcome
        ∷ vertices ∷ indices ∷ (row_at rows.now k).bin ∷ [])
        out.old out.new }
{
    let shell = body_rows::shell(rows, k);
    let face = body_rows::face(rows, k);
    let outcome = body_rows::outcome(rows, k);
    let bin = body_rows::bin(rows, k);
    put_row(out, k, shell, face, outcome, vertices, indices, bin);
}
