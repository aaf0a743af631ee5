// The rows in the order of their decisions: a word for each with its decision and the row, sorted.

ghost use Rattle.std.specs.Prelude.{◌≡◌};
ghost use Rattle.mesh_layout.specs.JudgedRows.{base_after};
ghost use Rattle.mesh_material_order.specs.Order.{order_word, BaseSmall, WordSmall, Orderable, RowsKept, RowsOrdered, OrderRoom, FirstAccepted};

// A decision stands in a word above the row, which takes so many bits.
const ROW_BITS: u32 = 12;

// There are at most so many rows.
pub const ROWS: u64 = 4096;

// A first vertex stands in a word above a first index, which is lower than this.
pub const INDICES: u64 = 1048576;

// How many vertices of the mesh stand before the next row, after a row with the decision d.
fn base_after(base: u64, vertices: u64, d: u64) -> u64
    requires { BaseSmall base vertices }
    ensures { result ≡ base_after base vertices d }
{
    if d == 0 {
        return base;
    }
    base + vertices
}

// Row k and its decision d in one word, which is higher for a higher decision and, of one decision, for a later row.
fn order_word(d: u64, k: u64) -> u64
    requires { WordSmall d k }
    ensures { result ≡ order_word d k }
{
    d * ROWS + k
}

// Each row's first vertex in the mesh and its first index in the body are kept in one word from `starts` on, its decision and its number in one from `order`
// on.
fn keep_rows(rows: &[u32], w: &mut [u64], at: usize, starts: usize, order: usize, m: usize)
    requires { Orderable rows.now w.old at starts order m }
    ensures { RowsKept rows.now w.old w.new at starts order m }
{
    let mut base = 0u64;
    let mut i = 0u64;
    for k in 0..m {
        let d = w[at + k];
        w[starts + k] = base * INDICES + i;
        w[order + k] = order_word(d, k as u64);
        base = base_after(base, body_rows::vertices(rows, k) as u64, d);
        i += body_rows::indices(rows, k) as u64;
    }
}

// The words of all rows stand from `order` on, rising by decision and then by row.
pub fn order_rows(rows: &[u32], w: &mut [u64], at: usize, starts: usize, order: usize, m: usize)
    requires { Orderable rows.now w.old at starts order m }
    ensures { RowsOrdered rows.now w.old w.new at starts order m }
{
    keep_rows(rows, w, at, starts, order, m);
    slice_sort::sort_words(w, order, m, ROW_BITS);
}

// The place of the first word of an accepted row: the words rise, and a failed row's decision is 0.
pub fn first_accepted(w: &[u64], order: usize, m: usize) -> usize
    requires { OrderRoom w.now order m }
    ensures { FirstAccepted w.now order m result }
{
    w[order..order + m].partition_point(|word| *word < ROWS)
}
