// Signed 64-bit numbers: the range of offsets and places, and words for them that aren't negative.
#![tactic(auto)]

ghost use Rattle.std.specs.Prelude.{◌≡◌, ◌+◌, ◌^◌, ◌≤◌, pos, ◌+ℤ◌, ◌-ℤ◌, nat_abs};
ghost use Rattle.signed_numbers.specs.Range.{farthest, within};

// The farthest that an offset or a place is from zero, 2^40.
const FARTHEST: u64 = 0x100_0000_0000;

// Whether a number is within plus or minus 2^40.
pub fn in_range(x: i64) -> bool
    ensures { result ≡ within x }
{
    x.unsigned_abs() <= FARTHEST
}

// The word of a number in range: 2^40 more, so that it isn't negative.
pub fn word_of(x: i64) -> u64
    requires { nat_abs x ≤ farthest }
    ensures { pos result ≡ x +ℤ pos farthest }
{
    (x + FARTHEST as i64) as u64
}

// The number that is `bias` less than a word.
pub fn less(n: u64, bias: u64) -> i64
    requires n_bound { n ≤ 2 ^ 62 }
    requires bias_bound { bias ≤ 2 ^ 62 }
    ensures { result ≡ pos n -ℤ pos bias }
{
    n as i64 - bias as i64
}
