// A listing: its entries checked, then written.

ghost use Rattle.std.specs.Prelude.{◌≡◌, length, ◌≤◌};
ghost use Rattle.plan_definition.specs.Writing.{entries_in, listing_refusal, listing_text};
ghost use Rattle.plan_write.specs.Answer.{CheckedListing, ListingPut, ListingWritten};
ghost use Rattle.refusals.specs.Numbers.{numbered};

use crate::entries::{check_entry, entry_words, line_length, put_bin};
use plan_definition::ENTRY_WIDTH;
use refusals::Refusal;

// Checks the entries of a list one by one; answers how many bytes their lines take.
fn check_listing(list: &[i64]) -> Result<usize, Refusal>
    ensures { CheckedListing list.now (numbered result) }
{
    let count = list.len() / ENTRY_WIDTH;
    let mut total: usize = 0;
    for k in 0..count {
        let words = entry_words(list, k);
        check_entry(words, k)?;
        total += line_length(words);
    }
    Ok(total)
}

// Writes the lines of a list whose entries are in range; answers how many bytes they take.
fn put_listing(list: &[i64], out: &mut [u8]) -> usize
    requires list_value { listing_refusal 0 (entries_in list.now) ≡ 0 }
    requires list_in_bounds { length (listing_text (entries_in list.now)) ≤ length out.old }
    ensures { ListingPut list.now out.old out.new result }
{
    let count = list.len() / ENTRY_WIDTH;
    let mut at: usize = 0;
    for k in 0..count {
        let words = entry_words(list, k);
        at = put_bin(words, out, at);
    }
    at
}

// Writes a listing: all entries are checked before the first byte is written, so that a refusal leaves the slice as it was.
pub fn write_plan(list: &[i64], out: &mut [u8]) -> Result<usize, Refusal>
    ensures { ListingWritten list.now out.old out.new (numbered result) }
{
    let length = check_listing(list)?;
    if out.len() < length {
        return Err(Refusal::Text);
    }
    Ok(put_listing(list, out))
}
