// The peg as the vertices of a row see it: less the row's place, so that each vertex is rounded before the place counts.

ghost use Rattle.std.specs.Prelude.{◌*◌, ◌+◌, ◌<◌, ◌≤◌, length, ◌≡◌, pos, nat_abs, ◌+ℤ◌};
ghost use Rattle.signed_numbers.specs.Range.{farthest};
ghost use Rattle.peg_distance.specs.Words.{AxisAim, AxisRange, PegAt, RowAim, RowRange};

use plan_definition::PlaceWords;
use signed_numbers::word_of;

// The word of micrometre 0, 2^43: no difference of a peg and a place is farther from it than a quarter of that.
pub const MIDDLE: u64 = 0x800_0000_0000;

// How many numbers a place has.
pub const PLACE_WIDTH: usize = 3;

// The words of the peg less a row's place, each 2^43 more than its number.
#[derive(Clone, Copy)]
pub struct Target {
    pub x: u64,
    pub y: u64,
    pub z: u64,
}

// The words of a peg in range.
pub fn peg_words(x: i64, y: i64, z: i64) -> PlaceWords
    requires x_bound { nat_abs x ≤ farthest }
    requires y_bound { nat_abs y ≤ farthest }
    requires z_bound { nat_abs z ≤ farthest }
    ensures { PegAt x y z result }
{
    PlaceWords {
        x: word_of(x),
        y: word_of(y),
        z: word_of(z),
    }
}

// The peg less number i of the places, on that axis.
fn axis_target(places: &[i64], i: usize, peg: u64) -> u64
    requires { AxisRange places.now i peg }
    ensures { AxisAim places.now i peg result }
{
    let place = word_of(places[i]);
    MIDDLE + peg - place
}

// The peg less the place of row k.
pub fn row_target(places: &[i64], k: usize, peg: PlaceWords) -> Target
    requires { RowRange places.now k peg }
    ensures { RowAim places.now k peg result }
{
    let at = PLACE_WIDTH * k;
    Target {
        x: axis_target(places, at, peg.x),
        y: axis_target(places, at + 1, peg.y),
        z: axis_target(places, at + 2, peg.z),
    }
}
