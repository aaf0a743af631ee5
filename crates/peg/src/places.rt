// 65: the peg or a row's place is out of range, or there are fewer places than rows.

ghost use Rattle.std.specs.Prelude.{◌≡◌, not, ◌*◌, ◌+◌, ◌<◌, ◌≤◌, length, take};
ghost use Rattle.lists.specs.Lists.{any};
ghost use Rattle.plan_definition.specs.Places.{in_range};
ghost use Rattle.peg_definition.specs.Peg.{bad_places, places_of};
ghost use Rattle.peg_definition.specs.PlaceLaws.{place_at};
ghost use Rattle.peg.specs.Answer.{at};

use peg_distance::PLACE_WIDTH;
use signed_numbers::in_range;

// Whether a place is in range on each axis.
pub fn place_in_range(x: i64, y: i64, z: i64) -> bool
    ensures { result ≡ in_range (at x y z) }
{
    in_range(x) && in_range(y) && in_range(z)
}

// Whether the place of row k is.
fn row_in_range(places: &[i64], k: usize) -> bool
    requires { 3 * k + 2 < length places.now }
    ensures { result ≡ in_range (place_at places.now k) }
{
    let at = PLACE_WIDTH * k;
    let x = places[at];
    let y = places[at + 1];
    let z = places[at + 2];
    place_in_range(x, y, z)
}

// Whether one of the first n places is out of range.
fn any_out_of_range(places: &[i64], n: usize) -> bool
    requires { 3 * n ≤ length places.now }
    ensures { result ≡ any (λ p. not (in_range p)) (take n (places_of places.now)) }
{
    for k in 0..n {
        if !row_in_range(places, k) {
            return true;
        }
    }
    false
}

// 65, for a body of n rows.
pub fn bad_places(places: &[i64], n: usize, x: i64, y: i64, z: i64) -> bool
    ensures { result ≡ bad_places (at x y z) places.now n }
{
    if !place_in_range(x, y, z) {
        return true;
    }
    if places.len() / PLACE_WIDTH < n {
        return true;
    }
    any_out_of_range(places, n)
}
