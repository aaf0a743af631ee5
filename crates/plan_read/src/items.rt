// One step of reading a plan: a line that offends, a bracket, a bin, the end of the text; and the path into the group that a line opens.

ghost use Rattle.std.specs.Prelude.{◌≡◌, ◌≤◌};
ghost use Rattle.plan_lines.specs.Given.{InWords, Small};
ghost use Rattle.plan_lines.specs.Sums.{Near};
ghost use Rattle.plan_read.specs.Steps.{BinRead, LeafRead, Opened, closed_step, end_step};
ghost use Rattle.refusals.specs.Numbers.{numbered};

use crate::path::Path;
use plan_definition::PlaceWords;
use plan_lines::{PlanLine, SumWords, moved, put_entry, sum_in_range};
use refusals::Refusal;

// How many groups may be open at once.
const MOST_DEPTH: usize = 16;

// How far reading came: whether the innermost group was closed; where the next line begins; how many bins stand.
#[derive(Clone, Copy)]
pub struct Step {
    pub closed: bool,
    pub next: usize,
    pub count: usize,
}

// A bracket closes the innermost group; it offends if none is open.
fn close_group(depth: usize, next: usize, count: usize) -> Result<Step, Refusal>
    ensures { numbered result ≡ closed_step depth next count }
{
    if depth == 0 {
        return Err(Refusal::Line);
    }
    Ok(Step {
        closed: true,
        next,
        count,
    })
}

// The text ends; it offends if a group is open.
fn end_text(depth: usize, next: usize, count: usize) -> Result<Step, Refusal>
    ensures { numbered result ≡ end_step depth next count }
{
    if depth != 0 {
        return Err(Refusal::Line);
    }
    Ok(Step {
        closed: true,
        next,
        count,
    })
}

// A bin stands in a list that has room for `room` of them; its place is the sum along its path.
fn read_bin(
    bin: u64,
    offset: PlaceWords,
    path: Path,
    next: usize,
    count: usize,
    room: usize,
    entries: &mut [i64],
) -> Result<Step, Refusal>
    requires bin_bound { bin ≤ 65535 }
    requires in_words { InWords offset }
    requires room_bound { room ≤ 4096 }
    ensures { BinRead bin offset path.sum next count room entries.old entries.new (numbered result) }
{
    let place = moved(path.sum, offset, path.depth);
    if !sum_in_range(place) {
        return Err(Refusal::Place);
    }
    if room <= count {
        return Err(Refusal::Entries);
    }
    put_entry(entries, count, bin, place);
    Ok(Step {
        closed: false,
        next,
        count: count + 1,
    })
}

// Reads a line that opens no group, or one too many.
pub fn read_leaf(
    line: PlanLine,
    path: Path,
    next: usize,
    count: usize,
    room: usize,
    entries: &mut [i64],
) -> Result<Step, Refusal>
    requires small { Small line }
    requires room_bound { room ≤ 4096 }
    ensures { LeafRead line path.depth path.sum next count room entries.old entries.new (numbered result) }
{
    match line {
        PlanLine::Open(_) => Err(Refusal::Depth),
        PlanLine::Bin(bin, offset) => read_bin(bin, offset, path, next, count, room, entries),
        PlanLine::Close => close_group(path.depth, next, count),
        PlanLine::Malformed => Err(Refusal::Line),
        PlanLine::End => end_text(path.depth, next, count),
    }
}

// The path into the group that a line opens, if it opens one that may still be opened.
pub fn open_group(line: PlanLine, depth: usize, sum: SumWords) -> Option<Path>
    requires small { Small line }
    requires near { Near depth sum }
    ensures { Opened line depth sum result }
{
    if MOST_DEPTH <= depth {
        return None;
    }
    match line {
        PlanLine::Open(offset) => Some(Path {
            depth: depth + 1,
            sum: moved(sum, offset, depth),
        }),
        _ => None,
    }
}
