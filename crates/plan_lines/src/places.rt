// Sums of offsets along a path, and a bin's entry in a lent list.

ghost use Rattle.std.specs.Prelude.{◌≡◌, ◌+◌, ◌≤◌, ◌<◌};
ghost use Rattle.plan_definition.specs.Places.{in_range};
ghost use Rattle.plan_lines.specs.Sums.{EntryPut, InWords, MovedTo, Near, entry_for, origin_words, sum_of, sum_word};
ghost use Rattle.signed_numbers.specs.Range.{within};

use plan_definition::{ENTRY_WIDTH, FARTHEST, PlaceWords};
use signed_numbers::less;

// The word of sum 0: sixteen groups and a bin add up to less than 2^45.
const SUM_ZERO: u64 = 0x2000_0000_0000;

// The words of a sum on three axes, each 2^45 more than the sum.
#[derive(Clone, Copy)]
pub struct SumWords {
    pub x: u64,
    pub y: u64,
    pub z: u64,
}

// The sum of no offsets.
pub fn origin() -> SumWords
    ensures { result ≡ origin_words }
{
    SumWords {
        x: SUM_ZERO,
        y: SUM_ZERO,
        z: SUM_ZERO,
    }
}

// A sum of `depth` offsets with one more.
pub fn moved(sum: SumWords, offset: PlaceWords, depth: usize) -> SumWords
    requires near { Near depth sum }
    requires in_words { InWords offset }
    requires depth_bound { depth ≤ 16 }
    ensures { MovedTo depth sum offset result }
{
    SumWords {
        x: sum.x + offset.x - FARTHEST,
        y: sum.y + offset.y - FARTHEST,
        z: sum.z + offset.z - FARTHEST,
    }
}

// Whether a word of a sum is that of one within plus or minus 2^40.
fn word_in_range(n: u64) -> bool
    ensures { result ≡ within (sum_word n) }
{
    SUM_ZERO - FARTHEST <= n && n <= SUM_ZERO + FARTHEST
}

// Whether a sum is within plus or minus 2^40 on each axis.
pub fn sum_in_range(sum: SumWords) -> bool
    ensures { result ≡ in_range (sum_of sum) }
{
    word_in_range(sum.x) && word_in_range(sum.y) && word_in_range(sum.z)
}

// A bin's entry behind the `count` entries of a list, where there is room for it.
pub fn put_entry(entries: &mut [i64], count: usize, bin: u64, sum: SumWords)
    requires count_bound { count < 4096 }
    requires bin_bound { bin ≤ 65535 }
    requires near { Near 17 sum }
    ensures { EntryPut entries.old count (entry_for bin sum) entries.new }
{
    let at = ENTRY_WIDTH * count;
    if entries.len() < at + ENTRY_WIDTH {
        return;
    }
    entries[at] = less(bin, 0);
    entries[at + 1] = less(sum.x, SUM_ZERO);
    entries[at + 2] = less(sum.y, SUM_ZERO);
    entries[at + 3] = less(sum.z, SUM_ZERO);
}
