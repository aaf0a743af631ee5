// Passes over the rows of a placed body.

ghost use Rattle.std.specs.Prelude.{◌≡◌, ◌-◌, ◌<◌, ◌≤◌, drop, length, take};
ghost use Rattle.peg_distance.specs.Words.{RowRange, beyond};
ghost use Rattle.peg_definition.specs.Peg.{nearest_bins, row_hits};
ghost use Rattle.peg_definition.specs.PlaceLaws.{place_at};
ghost use Rattle.peg_search.specs.Hits.{least_of};
ghost use Rattle.peg_search.specs.Search.{BestOf, BinPut, BinTies, Listed, NextBin, OneListed, Placed, RowThere, body_hits, lower_bin, peg_of, row_ties};
ghost use Rattle.body_rows.specs.Rows.{row_at};

use crate::best::{Best, best_with, no_best};
use body_rows::{bin, row_count, vertices};
use peg_distance::{row_least, row_target};
use plan_definition::PlaceWords;

// A bin number that no row has.
const NO_BIN: u32 = 65536;

// How near row k comes, whose coordinates stand from `from` up to `to`.
fn row_square(
    positions: &[f32],
    from: usize,
    to: usize,
    places: &[i64],
    k: usize,
    peg: PlaceWords,
) -> u64
    requires from_le_to { from ≤ to }
    requires to_in_bounds { to ≤ length positions.now }
    requires row_range { RowRange places.now k peg }
    ensures { result ≡ least_of (row_hits (peg_of peg) 0 (place_at places.now k) (take (to - from) (drop from positions.now))) }
{
    let target = row_target(places, k, peg);
    row_least(&positions[from..to], target)
}

// One pass over all vertices: the smallest sum of squares, with the lowest and the highest bin that have it.
pub fn find_best(rows: &[u32], positions: &[f32], places: &[i64], peg: PlaceWords) -> Best
    requires { Placed rows.now positions.now places.now peg }
    ensures { BestOf (body_hits rows.now positions.now places.now peg) result }
{
    let n = row_count(rows);
    let mut best = no_best();
    let mut from = 0usize;
    for k in 0..n {
        let to = from + 3 * vertices(rows, k) as usize;
        let square = row_square(positions, from, to, places, k, peg);
        best = best_with(best, square, bin(rows, k));
        from = to;
    }
    best
}

// The lower of a row's bin, from `first` on, and what was found.
fn lower_bin(bin: u32, first: u32, found: u32) -> u32
    ensures { result ≡ lower_bin bin first found }
{
    if bin < first { found } else { bin.min(found) }
}

// The lowest bin of a row from `first` on, 65,536 if there is none.
fn next_bin(rows: &[u32], first: u32) -> u32
    ensures { NextBin rows.now first result }
{
    let n = row_count(rows);
    let mut found = NO_BIN;
    for k in 0..n {
        found = lower_bin(bin(rows, k), first, found);
    }
    found
}

// Whether row k has the bin and comes as near as `square`; the vertices of other bins' rows are passed over.
fn row_ties(
    rows: &[u32],
    positions: &[f32],
    from: usize,
    to: usize,
    places: &[i64],
    k: usize,
    peg: PlaceWords,
    square: u64,
    wanted: u32,
) -> bool
    requires { RowThere rows.now positions.now places.now peg k from to }
    ensures { result ≡ row_ties (row_at rows.now k).bin wanted square
        (least_of (row_hits (peg_of peg) 0 (place_at places.now k) (take (to - from) (drop from positions.now)))) }
{
    bin(rows, k) == wanted && row_square(positions, from, to, places, k, peg) == square
}

// Whether a bin has the smallest sum of squares: a pass over its rows alone.
fn bin_ties(
    rows: &[u32],
    positions: &[f32],
    places: &[i64],
    peg: PlaceWords,
    square: u64,
    wanted: u32,
) -> bool
    requires placed { Placed rows.now positions.now places.now peg }
    requires square_value { square ≡ least_of (body_hits rows.now positions.now places.now peg) }
    requires square_lt_beyond { square < beyond }
    ensures { BinTies (body_hits rows.now positions.now places.now peg) square wanted result }
{
    let n = row_count(rows);
    let mut from = 0usize;
    for k in 0..n {
        let to = from + 3 * vertices(rows, k) as usize;
        if row_ties(rows, positions, from, to, places, k, peg, square, wanted) {
            return true;
        }
        from = to;
    }
    false
}

// Item i of a list, where it has one, becomes a bin.
fn put_bin(bins: &mut [u32], i: usize, bin: u32)
    ensures { BinPut bins.old i bin bins.new }
{
    if i < bins.len() {
        bins[i] = bin;
    }
}

// A bin into a list behind the i bins of it, if it has the smallest sum of squares; answers how many there are then.
fn list_bin(
    rows: &[u32],
    positions: &[f32],
    places: &[i64],
    peg: PlaceWords,
    square: u64,
    wanted: u32,
    bins: &mut [u32],
    i: usize,
) -> usize
    requires placed { Placed rows.now positions.now places.now peg }
    requires square_value { square ≡ least_of (body_hits rows.now positions.now places.now peg) }
    requires square_lt_beyond { square < beyond }
    requires i_bound { i < 65536 }
    ensures { OneListed (body_hits rows.now positions.now places.now peg) square wanted bins.old
        bins.new i result }
{
    if !bin_ties(rows, positions, places, peg, square, wanted) {
        return i;
    }
    put_bin(bins, i, wanted);
    i + 1
}

// The bins that share the smallest sum of squares, ascending, into the front of a list as far as it goes; answers how many they are. One bin takes no pass
// more; of several, each bin of a row from the lowest to the highest is looked at in turn.
pub fn list_bins(
    rows: &[u32],
    positions: &[f32],
    places: &[i64],
    peg: PlaceWords,
    best: Best,
    bins: &mut [u32],
) -> usize
    requires placed { Placed rows.now positions.now places.now peg }
    requires best_of { BestOf (body_hits rows.now positions.now places.now peg) best }
    requires square_lt_beyond { best.square < beyond }
    ensures { Listed (nearest_bins (body_hits rows.now positions.now places.now peg))
        bins.old bins.new result }
{
    let mut b = best.low;
    let mut i = 0usize;
    while b < best.high {
        i = list_bin(rows, positions, places, peg, best.square, b, bins, i);
        b = next_bin(rows, b + 1);
    }
    put_bin(bins, i, b);
    i + 1
}
