// The rows of a body turned to agree.

ghost use Rattle.std.specs.Prelude.{◌≡◌};
ghost use Rattle.point_rules.specs.Points as Points;
ghost use Rattle.turn_definition.specs.Orient.{turn_of};
ghost use Rattle.turn_volume_rule.specs.VolumeRule.{KeepsVolume};
ghost use Rattle.cad_answers.specs.Turning.{left_after_turn};

use cad_answers::CadTurned;

// The rows of a body are turned to agree where they stand; the work area needs 16 words an index and a row and 4 a vertex, which come back zero.
// Every group of a body that is not refused keeps the volume rule.
#[unsafe(no_mangle)]
pub extern "C" fn cad_turn(
    rows: &[u32],
    positions: &[f32],
    normals: &mut [f32],
    indices: &mut [u32],
    work: &mut [u64],
) -> CadTurned
    ensures work_after { left_after_turn result normals.new indices.new work.new
        ≡ turn_of Points.key rows.now positions.now normals.old indices.old work.old }
    ensures keeps_volume { result.refusal ≡ 0 → KeepsVolume Points.key rows.now positions.now normals.old
        indices.old normals.new indices.new }
{
    turn::turn(rows, positions, normals, indices, work).into()
}
