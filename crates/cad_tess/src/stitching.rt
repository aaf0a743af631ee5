// Cracks between the patches of a body closed, into second slices.

ghost use Rattle.std.specs.Prelude.{◌≡◌};
ghost use Rattle.point_rules.specs.Points as Points;
ghost use Rattle.stitch_definition.specs.Stitch.{stitch_of};
ghost use Rattle.stitch_definition.specs.Answers.{slices_of};
ghost use Rattle.cad_answers.specs.Stitching.{left_after_stitch};

use cad_answers::CadStitched;

// The stitched body goes to the second slices; the work area needs 16 words an index and a row and 4 a vertex, which come back zero.
#[unsafe(no_mangle)]
pub extern "C" fn cad_stitch(
    rows: &[u32],
    positions: &[f32],
    normals: &[f32],
    indices: &[u32],
    sag: f64,
    out_rows: &mut [u32],
    out_positions: &mut [f32],
    out_normals: &mut [f32],
    out_indices: &mut [u32],
    work: &mut [u64],
) -> CadStitched
    ensures { left_after_stitch result (slices_of out_rows.new out_positions.new out_normals.new out_indices.new
        work.new)
        ≡ stitch_of Points.key rows.now positions.now normals.now indices.now sag
        (slices_of out_rows.old out_positions.old out_normals.old out_indices.old work.old) }
{
    stitch::stitch(
        rows,
        positions,
        normals,
        indices,
        sag,
        out_rows,
        out_positions,
        out_normals,
        out_indices,
        work,
    )
    .into()
}
