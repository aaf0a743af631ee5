// What the program prints of a plan: a bin line for each entry in the order read, or only the refusal.
#![tactic(auto)]

ghost use Rattle.std.specs.Prelude.{◌≡◌, take, ◌*◌};
ghost use Rattle.plan_definition.specs.Reading.{entry_width};
ghost use Rattle.plan_print.specs.Printing.{Printed};

use plan_definition::ENTRY_WIDTH;
use plan_read::read_plan;
use plan_write::write_plan;
use sheet_answer::write_refusal;

// The first n entries of a list, or all there are.
fn front_entries(list: &[i64], n: usize) -> &[i64]
    ensures { result.now ≡ take (entry_width * n) list.now }
{
    if n <= list.len() / ENTRY_WIDTH {
        let end = ENTRY_WIDTH * n;
        &list[..end]
    } else {
        list
    }
}

// Reads a plan and writes what is printed of it to the front of `out`; answers how many bytes. The list is lent for the entries.
pub fn print_plan(text: &[u8], list: &mut [i64], out: &mut [u8]) -> usize
    ensures { Printed text.now list.old out.old out.new result }
{
    match read_plan(text, list) {
        Err(refusal) => write_refusal(out, refusal.number()),
        Ok(n) => match write_plan(front_entries(list, n), out) {
            Err(unwritten) => write_refusal(out, unwritten.number()),
            Ok(k) => k,
        },
    }
}
