// A yard plan read into a list of placed bins, and a list written back as text.

ghost use Rattle.std.specs.Prelude.{◌≡◌};
ghost use Rattle.plan_definition.specs.Answers.{listing_answer, listing_of, plan_answer, reading_of};
ghost use Rattle.plan_definition.specs.Reading.{list_after};
ghost use Rattle.plan_definition.specs.Writing.{text_after};
ghost use Rattle.cad_answers.specs.Plans.{cad_plan_read, cad_plan_written};

use cad_answers::{CadPlanRead, CadPlanWritten};

// A plan's bins are listed in the front of a list, four numbers each, in the order read; a refusal leaves the list as it was.
#[unsafe(no_mangle)]
pub extern "C" fn cad_read_plan(text: &[u8], list: &mut [i64]) -> CadPlanRead
    ensures value { result ≡ cad_plan_read (plan_answer (reading_of text.now list.old)) }
    ensures list_after { list.new ≡ list_after (reading_of text.now list.old) list.old }
{
    plan_read::read_plan(text, list).into()
}

// The entries of a list are written to the front of a slice, a bin line each; a refusal leaves the slice as it was.
#[unsafe(no_mangle)]
pub extern "C" fn cad_write_plan(list: &[i64], out: &mut [u8]) -> CadPlanWritten
    ensures value { result ≡ cad_plan_written (listing_answer (listing_of list.now out.old)) }
    ensures out_after { out.new ≡ text_after (listing_of list.now out.old) out.old }
{
    plan_write::write_plan(list, out).into()
}
