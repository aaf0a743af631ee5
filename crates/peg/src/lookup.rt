// The lookup: checks, then passes over the rows.

ghost use Rattle.std.specs.Prelude.{◌<◌};
ghost use Rattle.peg_definition.specs.Peg.{nearest_bins};
ghost use Rattle.peg_distance.specs.Words.{beyond};
ghost use Rattle.peg_search.specs.Search.{BestOf, Placed, body_hits};
ghost use Rattle.peg.specs.Answer.{BinsListed, PegFound, Ranged, placed_hits};
ghost use Rattle.refusals.specs.Numbers.{numbered};

use crate::places::bad_places;
use body_checks::failing_before_work;
use body_rows::row_count;
use peg_distance::{BEYOND, peg_words};
use peg_search::{Best, find_best, list_bins};
use plan_definition::PlaceWords;
use refusals::Refusal;

// The bins that share the smallest sum of squares, into a list that has room for them: they are counted before the first is written, so that 66 leaves
// the list.
fn listed(
    rows: &[u32],
    positions: &[f32],
    places: &[i64],
    peg: PlaceWords,
    best: Best,
    bins: &mut [u32],
) -> Result<u32, Refusal>
    requires placed { Placed rows.now positions.now places.now peg }
    requires best_of { BestOf (body_hits rows.now positions.now places.now peg) best }
    requires square_lt_beyond { best.square < beyond }
    ensures { BinsListed (nearest_bins (body_hits rows.now positions.now places.now peg))
        bins.old bins.new (numbered result) }
{
    let count = list_bins(rows, positions, places, peg, best, &mut bins[..0]);
    if bins.len() < count {
        return Err(Refusal::BinList);
    }
    let written = list_bins(rows, positions, places, peg, best, bins);
    Ok(written as u32)
}

// The bins nearest a peg in range, of a body that is placed in range.
fn placed_bins(
    rows: &[u32],
    positions: &[f32],
    places: &[i64],
    x: i64,
    y: i64,
    z: i64,
    bins: &mut [u32],
) -> Result<u32, Refusal>
    requires { Ranged rows.now positions.now places.now x y z }
    ensures { BinsListed (nearest_bins (placed_hits rows.now positions.now places.now x y z)) bins.old
        bins.new (numbered result) }
{
    let peg = peg_words(x, y, z);
    let best = find_best(rows, positions, places, peg);
    if best.square == BEYOND {
        return Ok(0);
    }
    listed(rows, positions, places, peg, best, bins)
}

// The bins nearest a peg at x, y, z, into the front of a list.
#[tactic(auto, using(crate::proofs::LookupLaws::refused_rules))]
pub fn nearest_bins(
    rows: &[u32],
    positions: &[f32],
    normals: &[f32],
    indices: &[u32],
    places: &[i64],
    x: i64,
    y: i64,
    z: i64,
    bins: &mut [u32],
) -> Result<u32, Refusal>
    ensures { PegFound rows.now positions.now normals.now indices.now places.now x y z
        bins.old bins.new (numbered result) }
{
    failing_before_work(rows, positions, normals, indices)?;
    if bad_places(places, row_count(rows), x, y, z) {
        return Err(Refusal::Peg);
    }
    placed_bins(rows, positions, places, x, y, z, bins)
}
