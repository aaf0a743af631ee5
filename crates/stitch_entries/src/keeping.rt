// The entries kept of pairs in any order: where all are close to the least it alone is kept, and nothing is sorted.

ghost use Rattle.std.specs.Prelude.{◌≡◌};
ghost use Rattle.std.specs.List.{list_all};
ghost use Rattle.slice_pairs.specs.Pairs.{PairsHeld};
ghost use Rattle.stitch_pairs.specs.Words.{KeptInOrder};
ghost use Rattle.stitch_entries.specs.LeastPairs.{SomePairs, LeastPair};
ghost use Rattle.stitch_entries.specs.PairEntries.{close_keys};

use crate::entries::{are_close, drop_close, keep_pair};
use slice_pairs::{comes_before, sort_pairs};

// The place of the least of n pairs.
fn least_pair(w: &[u64], at: usize, ts: usize, n: usize) -> usize
    requires { SomePairs at ts n w.now }
    ensures { LeastPair at ts n w.now result }
{
    let mut k = 0usize;
    for j in 1..n {
        if comes_before(w, at, ts, j, k) {
            k = j;
        }
    }
    k
}

// Whether all pairs with those higher words are on the edge of one and closer than 1e-9 to it.
fn all_close(key: u64, keys: &[u64]) -> bool
    ensures { result ≡ list_all (close_keys key) keys.now }
{
    keys.iter().all(|x| are_close(key, *x))
}

// The pairs are sorted, and close ones dropped.
fn sort_and_drop(w: &mut [u64], at: usize, ts: usize, n: usize) -> usize
    requires { PairsHeld at ts n w.old }
    ensures { KeptInOrder at ts n w.old w.new result }
{
    sort_pairs(w, at, ts, n);
    drop_close(w, at, ts, n)
}

// The n pairs in rising order become entries, except those on the edge of the last kept and closer than 1e-9 to it; the answer is how many are kept. Of pairs
// that are all that close to the least only it is.
pub fn keep_in_order(w: &mut [u64], at: usize, ts: usize, n: usize) -> usize
    requires { PairsHeld at ts n w.old }
    ensures { KeptInOrder at ts n w.old w.new result }
{
    if n == 0 {
        return 0;
    }
    let k = least_pair(w, at, ts, n);
    if all_close(w[ts + k], &w[ts..ts + n]) {
        keep_pair(w, at, ts, k, 0);
        return 1;
    }
    sort_and_drop(w, at, ts, n)
}
