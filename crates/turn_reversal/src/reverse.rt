// Coloured rows are reversed where they stand: corners 1 and 2 of each triangle swapped, normals negated.

ghost use Rattle.std.specs.Prelude.{◌≡◌, ◌%◌, map, length, take, drop};
ghost use Rattle.std.specs.Float.Ieee.{neg};
ghost use Rattle.body_rows.specs.Body.{rows_of};
ghost use Rattle.turn_definition.specs.Reversal.{swapped};
ghost use Rattle.turn_reversal.specs.Reversed.{RowReversed, Reversible, Reversed};

use turn_walk::COLOURED;

// A triangle has so many corners.
const CORNERS: usize = 3;

// Corners 1 and 2 of each triangle are swapped.
fn swap_corners(indices: &mut [u32])
    requires { length indices.old % 3 ≡ 0 }
    ensures { indices.new ≡ swapped indices.old }
{
    for k in (0..indices.len()).step_by(CORNERS) {
        indices.swap(k + 1, k + 2);
    }
}

// The numbers get the other sign.
fn negate(normals: &mut [f32])
    ensures { normals.new ≡ map neg normals.old }
{
    for normal in normals.iter_mut() {
        *normal = -*normal;
    }
}

// A row of colour 2 is reversed. The answer is 1 if it was.
fn reverse_row(normals: &mut [f32], indices: &mut [u32], colour: u64) -> u32
    requires { length indices.old % 3 ≡ 0 }
    ensures { RowReversed colour normals.old indices.old normals.new indices.new result }
{
    if colour == COLOURED {
        swap_corners(indices);
        negate(normals);
        return 1;
    }
    0
}

// Each coloured row is reversed; the answer is how many there are. The colours stand from `colours` on.
pub fn reverse_rows(
    rows: &[u32],
    normals: &mut [f32],
    indices: &mut [u32],
    w: &[u64],
    colours: usize,
) -> u32
    requires { Reversible rows.now normals.old indices.old w.now colours }
    ensures { Reversed (take (length (rows_of rows.now)) (drop colours w.now)) rows.now
        normals.old indices.old normals.new indices.new result }
{
    let n = body_rows::row_count(rows);
    let mut turned = 0u32;
    let mut v = 0usize;
    let mut i = 0usize;
    for k in 0..n {
        let vend = v + 3 * body_rows::vertices(rows, k) as usize;
        let iend = i + body_rows::indices(rows, k) as usize;
        turned += reverse_row(&mut normals[v..vend], &mut indices[i..iend], w[colours + k]);
        v = vend;
        i = iend;
    }
    turned
}
