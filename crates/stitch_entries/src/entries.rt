// Pairs of found points in the work area, and the entries made of them.

ghost use Rattle.std.specs.Prelude.{◌≡◌, ◌+◌, ◌/◌, ◌%◌, ◌<◌, length, get_or};
ghost use Rattle.std.specs.Float.Ieee.{lt};
ghost use Rattle.float_steps.specs.Floats.{f64, absolute};
ghost use Rattle.patch_geometry.specs.Geometry.{sub};
ghost use Rattle.slice_pairs.specs.Pairs.{PairsHeld};
ghost use Rattle.stitch_splits.specs.Splits.{near_last};
ghost use Rattle.stitch_splits.specs.Entries.{close_to, entry_at, EntryPlaces};
ghost use Rattle.stitch_pairs.specs.Words.{PairRoom, PairAppended, KeptOfPairs};
ghost use Rattle.stitch_entries.specs.PairEntries.{pair_entry_at, entry_written, close_keys, close_to_last, PairPlace};

use float_steps::{absolute_f64, bits_of_f64, f64_of_bits};
use stitch_splits::EDGE_STEP;

// The higher word of a pair is its edge times this number, and its parameter's bits, which are below it.
const KEY_STEP: u64 = 4611686018427387904;

// The edge of the entry at place j.
pub fn entry_edge(w: &[u64], at: usize, j: usize) -> u64
    requires { at + j < length w.now }
    ensures { result ≡ get_or w.now (at + j) 0 / 262144 }
{
    w[at + j] / EDGE_STEP
}

// The parameter of the entry at place j.
pub fn entry_parameter(w: &[u64], ts: usize, j: usize) -> f64
    requires { ts + j < length w.now }
    ensures { result ≡ f64 (get_or w.now (ts + j) 0) }
{
    f64_of_bits(w[ts + j])
}

// The pair of edge e, parameter t and word x goes behind the `count` pairs.
pub fn append_pair(w: &mut [u64], at: usize, ts: usize, count: usize, e: u64, t: f64, x: u64)
    requires { PairRoom at ts count e t w.old }
    ensures { PairAppended at ts count e t x w.old w.new }
{
    let bits = bits_of_f64(t);
    w[at + count] = x;
    w[ts + count] = e * KEY_STEP + bits;
}

// The edge of the pair with that higher word.
fn pair_edge(key: u64) -> u64
    ensures { result ≡ key / 4611686018427387904 }
{
    key / KEY_STEP
}

// Its parameter.
fn pair_parameter(key: u64) -> f64
    ensures { result ≡ f64 (key % 4611686018427387904) }
{
    f64_of_bits(key % KEY_STEP)
}

// Whether two parameters are closer than 1e-9.
fn is_near(x: f64, y: f64) -> bool
    ensures { result ≡ lt (absolute (sub x y)) near_last }
{
    let d = x - y;
    absolute_f64(d) < 0.000000001
}

// Whether the pair at place j is on the edge of the entry at place k and closer than 1e-9 to it.
fn is_close(w: &[u64], at: usize, ts: usize, j: usize, k: usize) -> bool
    requires { EntryPlaces at ts j k w.now }
    ensures { result ≡ close_to (entry_at w.now at ts k) (pair_entry_at w.now at ts j) }
{
    let key = w[ts + j];
    if pair_edge(key) == entry_edge(w, at, k) {
        return is_near(pair_parameter(key), entry_parameter(w, ts, k));
    }
    false
}

// Whether the pairs with those higher words are on one edge and closer than 1e-9.
pub fn are_close(x: u64, y: u64) -> bool
    ensures { result ≡ close_keys x y }
{
    if pair_edge(y) == pair_edge(x) {
        return is_near(pair_parameter(y), pair_parameter(x));
    }
    false
}

// The entry of the pair at place j is written to place k.
pub fn keep_pair(w: &mut [u64], at: usize, ts: usize, j: usize, k: usize)
    requires { EntryPlaces at ts j k w.old }
    ensures { w.new ≡ entry_written w.old at ts j k }
{
    let key = w[ts + j];
    let vertex = w[at + j] % EDGE_STEP;
    w[at + k] = key / KEY_STEP * EDGE_STEP + vertex;
    w[ts + k] = key % KEY_STEP;
}

// Whether the pair at place j is that close to the last of the `kept` entries.
fn close_to_last(w: &[u64], at: usize, ts: usize, j: usize, kept: usize) -> bool
    requires { PairPlace at ts j kept w.now }
    ensures { result ≡ close_to_last w.now at ts kept (pair_entry_at w.now at ts j) }
{
    if kept == 0 {
        return false;
    }
    is_close(w, at, ts, j, kept - 1)
}

// The pairs become entries, except those on the edge of the last kept and closer than 1e-9 to it; the answer is how many are kept.
pub fn drop_close(w: &mut [u64], at: usize, ts: usize, count: usize) -> usize
    requires { PairsHeld at ts count w.old }
    ensures { KeptOfPairs at ts count w.old w.new result }
{
    let mut kept = 0usize;
    for j in 0..count {
        if !close_to_last(w, at, ts, j, kept) {
            keep_pair(w, at, ts, j, kept);
            kept += 1;
        }
    }
    kept
}
