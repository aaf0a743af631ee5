// The face numbers with a count above 0 ranked: rows sorted by face number, then the counts of the first rows of a number sorted, the highest first.
//
// The work area from `at` on, of m words each (specs/Ranks.antt): face numbers, first rows, two words of the table that joined them, counts, ranks with
// the words taken to sort them, order with the words taken to sort it, entries.

ghost use Rattle.std.specs.Prelude.{◌≡◌, ◌+◌, ◌*◌};
ghost use Rattle.report_audit.specs.Ranks.{count_at, entry_at, WordSmall, RanksReady, RanksListed, RowsRanked, CountReady, GatherReady, Gathered};
ghost use Rattle.report_audit.specs.Ranks.{EntryReady, EntriesReady, EntriesWritten, RankReady, Ranked};

use slice_sort::sort_words;

// Where each region starts, in m words.
const HEADS: usize = 1;

const COUNTS: usize = 4;

const RANKS: usize = 5;

const ORDER: usize = 7;

const ENTRIES: usize = 9;

// There are at most so many rows, and a row or a rank takes so many bits.
const ROWS: u64 = 4096;

const ROW_BITS: u32 = 12;

// No count is above this: each of 786,432 uses marks twice at most.
const MOST: u64 = 1572864;

// A count stands in an entry's word above the face number, which is lower than this.
pub const COUNT_UNIT: u64 = 4294967296;

// A row and its face number in one word, which is higher for a higher number and, of one number, for a later row.
fn rank_word(face: u64, row: u64) -> u64
    requires { WordSmall face row }
    ensures { result ≡ face * 4096 + row }
{
    face * ROWS + row
}

// A word for each row, to rank them by.
fn list_ranks(w: &mut [u64], at: usize, m: usize)
    requires { RanksReady w.old at m }
    ensures { RanksListed w.old at m w.new }
{
    let ranks = at + RANKS * m;
    for k in 0..m {
        w[ranks + k] = rank_word(w[at + k], k as u64);
    }
}

// The rows are ranked by face number, then by row.
fn rank_rows(w: &mut [u64], at: usize, m: usize)
    requires { RanksReady w.old at m }
    ensures { RowsRanked w.old at m w.new }
{
    list_ranks(w, at, m);
    sort_words(w, at + RANKS * m, m, ROW_BITS);
}

// The count of the row of rank i, if it is the first of its face number; else 0.
fn count_at(w: &[u64], at: usize, m: usize, i: usize) -> u64
    requires { CountReady w.now at m i }
    ensures { result ≡ count_at w.now at m i }
{
    let row = w[at + RANKS * m + i] % ROWS;
    let k = row as usize;
    if w[at + HEADS * m + k] == row {
        return w[at + COUNTS * m + k];
    }
    0
}

// For each rank with a count above 0 a word that is higher for a lower count and, of one count, for a later rank; answers how many.
// A word is written at every rank, and the next one over it where the count is 0.
fn gather(w: &mut [u64], at: usize, m: usize) -> usize
    requires { GatherReady w.old at m }
    ensures { Gathered w.old at m result w.new }
{
    let order = at + ORDER * m;
    let mut r = 0usize;
    for i in 0..m {
        let count = count_at(w, at, m, i);
        w[order + r] = (MOST - count) * ROWS + i as u64;
        r += count.min(1) as usize;
    }
    r
}

// The entry of the rank at place k: its count above its face number.
fn entry_at(w: &[u64], at: usize, m: usize, k: usize) -> u64
    requires { EntryReady w.now at m k }
    ensures { result ≡ entry_at w.now at m k }
{
    let x = w[at + ORDER * m + k];
    let i = (x % ROWS) as usize;
    (MOST - x / ROWS) * COUNT_UNIT + w[at + RANKS * m + i] / ROWS
}

// The entries of r ranks in their order.
fn write_entries(w: &mut [u64], at: usize, m: usize, r: usize)
    requires { EntriesReady w.old at m r }
    ensures { EntriesWritten w.old at m r w.new }
{
    let entries = at + ENTRIES * m;
    for k in 0..r {
        w[entries + k] = entry_at(w, at, m, k);
    }
}

// The face numbers of m rows with a count above 0, ranked: answers how many.
pub fn rank_counts(w: &mut [u64], at: usize, m: usize) -> usize
    requires { RankReady w.old at m }
    ensures { Ranked w.old at m result w.new }
{
    rank_rows(w, at, m);
    let r = gather(w, at, m);
    sort_words(w, at + ORDER * m, r, ROW_BITS);
    write_entries(w, at, m, r);
    r
}
