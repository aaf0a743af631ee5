// A plan's text read into a lent list.

ghost use Rattle.std.specs.Prelude.{◌≡◌};
ghost use Rattle.plan_definition.specs.Reading.{room_of};
ghost use Rattle.plan_read.specs.Answer.{PlanRead};
ghost use Rattle.refusals.specs.Numbers.{numbered};

use crate::groups::read_group;
use crate::path::Path;
use plan_definition::{ENTRY_WIDTH, MOST_ENTRIES};
use plan_lines::origin;
use refusals::Refusal;

// How many bins a list of so many numbers has room for.
fn room_in(length: usize) -> usize
    ensures { result ≡ room_of length }
{
    (length / ENTRY_WIDTH).min(MOST_ENTRIES)
}

// Reads a plan: the whole text is read before the first entry is written, so that a refusal leaves the list as it was.
#[tactic(auto, using(crate::proofs::PlanLaws::refused_rules))]
pub fn read_plan(text: &[u8], entries: &mut [i64]) -> Result<usize, Refusal>
    ensures { PlanRead text.now entries.old entries.new (numbered result) }
{
    let room = room_in(entries.len());
    let start = Path {
        depth: 0,
        sum: origin(),
    };
    read_group(text, start, 0, 0, room, &mut entries[..0])?;
    let listed = read_group(text, start, 0, 0, room, entries)?;
    Ok(listed.count)
}
