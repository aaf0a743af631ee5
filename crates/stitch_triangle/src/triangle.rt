// The points that split one triangle: the loose vertices found on its open edges, in order, without those close to the one before them.

ghost use Rattle.stitch_triangle.specs.ByFinder.{Splittable, Split};

use crate::search::{Tally, find_all};
use stitch_entries::keep_in_order;
use stitch_splits::{Finder, Sides};

// The points that split a triangle are found on its edges in turn, and kept in order but for those close to the one before them; the answer is how many were
// found and are kept.
pub fn split_triangle(positions: &[f32], w: &mut [u64], s: Sides, f: Finder) -> Tally
    requires { Splittable positions.now s f w.old }
    ensures { Split positions.now s f w.old w.new result }
{
    let none = Tally {
        found: 0,
        placed: 0,
    };
    let one = find_all(positions, w, s, f, 0, none);
    let two = find_all(positions, w, s, f, 1, one);
    let three = find_all(positions, w, s, f, 2, two);
    let kept = keep_in_order(w, f.at, f.ts, three.placed);
    Tally {
        found: three.found,
        placed: kept,
    }
}
