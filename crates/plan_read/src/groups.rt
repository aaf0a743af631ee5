// Reading a group calls reading an item, which calls reading a group: what remains of the text falls, and at most sixteen are open.

ghost use Rattle.plan_read.specs.Steps.{GroupRead, ItemRead, Ready};
ghost use Rattle.refusals.specs.Numbers.{numbered};

use crate::items::{Step, open_group, read_leaf};
use crate::path::Path;
use plan_lines::line_at;
use refusals::Refusal;

// Reads the items of a group up to its bracket; with no group open, those of the plan up to its end.
#[cycle(read_group_read_item)]
pub fn read_group(
    text: &[u8],
    path: Path,
    at: usize,
    count: usize,
    room: usize,
    entries: &mut [i64],
) -> Result<Step, Refusal>
    requires { Ready text.now at room }
    ensures { GroupRead text.now path.depth path.sum at count room entries.old entries.new (numbered result) }
{
    let mut next: usize = at;
    let mut standing: usize = count;
    loop {
        let s = read_item(text, path, next, standing, room, entries)?;
        if s.closed {
            return Ok(s);
        }
        next = s.next;
        standing = s.count;
    }
}

// Reads an item: a bin, a group with all that it holds, or what ends the group.
#[cycle(read_group_read_item)]
fn read_item(
    text: &[u8],
    path: Path,
    at: usize,
    count: usize,
    room: usize,
    entries: &mut [i64],
) -> Result<Step, Refusal>
    requires { Ready text.now at room }
    ensures { ItemRead text.now path.depth path.sum at count room entries.old entries.new (numbered result) }
{
    let found = line_at(text, at);
    let line = found.line;
    let end = found.end;
    let Some(inner) = open_group(line, path.depth, path.sum) else {
        return read_leaf(line, path, end, count, room, entries);
    };
    let s = read_group(text, inner, end, count, room, entries)?;
    Ok(Step {
        closed: false,
        next: s.next,
        count: s.count,
    })
}
