// An accepted body turned: coloured, coloured rows reversed, the work area cleared.
#![tactic(auto)]

ghost use Rattle.std.specs.Prelude.{◌≡◌, length};
ghost use Rattle.body_checks.specs.Accepted.{Passed};
ghost use Rattle.turn_definition.specs.Answers.{left_done, turn_done};

use join_definition::JOIN_WORDS;
use turn_definition::TurnCounts;
use turn_walk::{ROW_WORDS_BEFORE_COLOURS, USE_WORDS_BEFORE_COLOURS};

// The rows of an accepted body are turned to agree, and the words of the work area that the body needs become 0.
pub fn turn_accepted(
    rows: &[u32],
    positions: &[f32],
    normals: &mut [f32],
    indices: &mut [u32],
    work: &mut [u64],
) -> TurnCounts
    requires { Passed rows.now positions.now normals.old indices.old (length work.old) }
    ensures { left_done result normals.new indices.new work.new
        ≡ turn_done rows.now positions.now normals.old indices.old work.old }
{
    let v = body_rows::total_vertices(rows);
    let m = body_rows::row_count(rows);
    let n = indices.len();
    let colours = JOIN_WORDS * v + ROW_WORDS_BEFORE_COLOURS * m + USE_WORDS_BEFORE_COLOURS * n;
    let against = turn_colouring::colour_rows(rows, positions, indices, work, v, m);
    let turned = turn_reversal::reverse_rows(rows, normals, indices, work, colours);
    body_checks::clear_words(rows, work);
    TurnCounts {
        turned: turned,
        against: against,
    }
}
