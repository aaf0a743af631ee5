// How far a vertex is from a peg, and the least of a row.

ghost use Rattle.std.specs.Prelude.{◌≡◌, ◌+◌, ◌≤◌, ◌<◌, min, suc, get_or, length};
ghost use Rattle.std.specs.Float.{nan};
ghost use Rattle.peg_definition.specs.Peg.{reach};
ghost use Rattle.peg_distance.specs.Words.{Aimed, InReach, Squared, apart_from, least_to, square_to};

use crate::target::{MIDDLE, Target};
use point_cell::nearest_word;

// How many micrometres a millimetre has.
const MICROMETRES: u64 = 1000;

// The farthest on an axis that counts.
const REACH: u64 = 5000;

// What stands for the sum of squares of a vertex that is ignored: one more than the largest that counts.
pub const BEYOND: u64 = 75_000_001;

// How far a coordinate is from the target on its axis; beyond the reach it may be told nearer, but not within.
fn apart(v: f32, target: u64) -> u64
    requires { InReach target }
    ensures { min result (suc reach) ≡ min (apart_from target v) (suc reach) }
{
    let w = nearest_word(v, MICROMETRES, MIDDLE);
    if w < target { target - w } else { w - target }
}

// The square of a distance within the reach.
fn squared(x: u64) -> u64
    requires { x ≤ reach }
    ensures { Squared x result }
{
    x * x
}

// The sum of squares of the vertex whose coordinates start at k, or `BEYOND` if it is ignored.
fn square_at(positions: &[f32], k: usize, target: Target) -> u64
    requires k_in_bounds { k + 2 < length positions.now }
    requires aimed { Aimed target }
    ensures { result ≡ square_to target (get_or positions.now k nan) (get_or positions.now (k + 1) nan)
        (get_or positions.now (k + 2) nan) }
{
    let x = apart(positions[k], target.x);
    if REACH < x {
        return BEYOND;
    }
    let y = apart(positions[k + 1], target.y);
    if REACH < y {
        return BEYOND;
    }
    let z = apart(positions[k + 2], target.z);
    if REACH < z {
        return BEYOND;
    }
    squared(x) + squared(y) + squared(z)
}

// The smallest sum of squares of a row's vertices, `BEYOND` if all are ignored.
pub fn row_least(positions: &[f32], target: Target) -> u64
    requires { Aimed target }
    ensures { result ≡ least_to target positions.now }
{
    let mut least = BEYOND;
    for t in 0..positions.len() / 3 {
        least = square_at(positions, 3 * t, target).min(least);
    }
    least
}
