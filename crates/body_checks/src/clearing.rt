// The words of the work area that 31 counts, cleared.

ghost use Rattle.std.specs.Prelude.{◌≡◌};
ghost use Rattle.body_rows.specs.Body.{rows_of, cleared};
ghost use Rattle.body_checks.specs.Cleared.{Clearable};

// The words that 31 counts become 0.
pub fn clear_words(rows: &[u32], work: &mut [u64])
    requires { Clearable rows.now work.old }
    ensures { work.new ≡ cleared (rows_of rows.now) work.old }
{
    let words = body_rows::work_needed(rows);
    slice_fill::clear(work, words);
}
