// turn: the rows of a body turned to agree, where they stand.
#![tactic(auto)]

ghost use Rattle.std.specs.Prelude.{◌≡◌};
ghost use Rattle.refusals.specs.Numbers.{numbered};
ghost use Rattle.point_rules.specs.Points.{key};
ghost use Rattle.turn_definition.specs.Orient.{turn_of};
ghost use Rattle.turn_definition.specs.Answers.{left, answered};
ghost use Rattle.turn_volume_rule.specs.VolumeRule.{DoneKeepsVolume};

use body_checks::first_failing;
use refusals::Refusal;
use turn_accepted::turn_accepted;
use turn_definition::TurnCounts;

// The rows of a body are turned to agree: coloured rows have corners 1 and 2 of each triangle swapped and their normals negated.
// A body that fails a check is refused with the first that it fails, and nothing is changed. Every group of any other body keeps the volume rule.
#[tactic(auto, using(refusals::specs::Laws::number_positive, crate::proofs::TurnLaws::refused_answered))]
pub fn turn(
    rows: &[u32],
    positions: &[f32],
    normals: &mut [f32],
    indices: &mut [u32],
    work: &mut [u64],
) -> Result<TurnCounts, Refusal>
    ensures work_after { left (numbered result) normals.new indices.new work.new
        ≡ answered (turn_of key rows.now positions.now normals.old indices.old work.old) }
    ensures done_keeps_volume { DoneKeepsVolume result key rows.now positions.now normals.old indices.old
        normals.new indices.new }
{
    first_failing(rows, positions, normals, indices, work.len())?;
    Ok(turn_accepted(rows, positions, normals, indices, work))
}
