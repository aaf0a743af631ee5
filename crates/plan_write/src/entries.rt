// An entry of a lent list by its words, which aren't negative: what it is refused for, and its line.

ghost use Rattle.std.specs.Prelude.{◌≡◌, pos, get_or, length, ◌*◌, ◌+◌, ◌<◌, ◌≤◌};
ghost use Rattle.refusals.specs.Numbers.{failing};
ghost use Rattle.sheet_digit_writing.specs.Writing.{Wrote};
ghost use Rattle.signed_numbers.specs.Range.{farthest};
ghost use Rattle.plan_write.specs.Entries.{EntryOf, LineLength, WordOf, bin_word, entry_at, place_words, words_line, words_refusal};

use plan_definition::{ENTRY_WIDTH, FARTHEST, MOST_BIN, MOST_ENTRIES, PlaceWords};
use refusals::Refusal;
use sheet_lines::put_line;
use signed_numbers::{in_range, word_of};

// The word of a number out of range: one more than the largest word of an offset.
const OUTSIDE: u64 = 0x200_0000_0001;

// The words of an entry, each 2^40 more than its number.
#[derive(Clone, Copy)]
pub struct EntryWords {
    pub bin: u64,
    pub place: PlaceWords,
}

// The word of number i of a list, a word of its own if the number is out of range.
fn word_at(list: &[i64], i: usize) -> u64
    requires { i < length list.now }
    ensures { WordOf (get_or list.now i (pos 0)) result }
{
    let n = list[i];
    if !in_range(n) {
        return OUTSIDE;
    }
    word_of(n)
}

// The words of entry k of a list.
pub fn entry_words(list: &[i64], k: usize) -> EntryWords
    requires { 4 * k + 4 ≤ length list.now }
    ensures { EntryOf (entry_at list.now k) result }
{
    let at = ENTRY_WIDTH * k;
    EntryWords {
        bin: word_at(list, at),
        place: PlaceWords {
            x: word_at(list, at + 1),
            y: word_at(list, at + 2),
            z: word_at(list, at + 3),
        },
    }
}

// Whether a word is that of a bin in range, 0 to 65,535.
fn bin_in_range(bin: u64) -> bool
    ensures { result ≡ bin_word bin }
{
    FARTHEST <= bin && bin <= FARTHEST + MOST_BIN
}

// Whether the words of a place are those of one in range on each axis.
fn place_in_range(place: PlaceWords) -> bool
    ensures { result ≡ place_words place }
{
    place.x != OUTSIDE && place.y != OUTSIDE && place.z != OUTSIDE
}

// Checks entry k.
pub fn check_entry(words: EntryWords, k: usize) -> Result<(), Refusal>
    ensures { failing result ≡ words_refusal words k }
{
    if !bin_in_range(words.bin) {
        return Err(Refusal::Line);
    }
    if !place_in_range(words.place) {
        return Err(Refusal::Place);
    }
    if MOST_ENTRIES <= k {
        return Err(Refusal::Entries);
    }
    Ok(())
}

// The line of an entry in range at a place; answers the place after it.
pub fn put_bin(words: EntryWords, out: &mut [u8], at: usize) -> usize
    requires at_in_bounds { at ≤ length out.old }
    requires farthest_le_bin { farthest ≤ words.bin }
    ensures { Wrote out.old at (words_line words) out.new result }
{
    let bin = words.bin - FARTHEST;
    let place = words.place;
    put_line(out, at, b"(bin#%%%)", &[bin, place.x, place.y, place.z])
}

// How many bytes the line of an entry in range has.
pub fn line_length(words: EntryWords) -> usize
    requires { farthest ≤ words.bin }
    ensures { LineLength words result }
{
    let mut line = [0u8; 96];
    put_bin(words, &mut line, 0)
}
