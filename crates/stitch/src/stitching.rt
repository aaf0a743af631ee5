// stitch: cracks between the patches of a body closed, into second slices.

ghost use Rattle.std.specs.Prelude.{◌≡◌, ◌+◌, ◌*◌, length};
ghost use Rattle.refusals.specs.Numbers.{numbered};
ghost use Rattle.point_rules.specs.Rule.{names};
ghost use Rattle.point_rules.specs.Points.{key};
ghost use Rattle.body_rows.specs.Body.{rows_of, patches_of};
ghost use Rattle.body_checks.specs.Accepted.{Passed};
ghost use Rattle.stitch_definition.specs.Stitch.{stitch_body, stitch_of, stitch_accepted};
ghost use Rattle.stitch_definition.specs.Answers.{slices_of, left_stitch, stitch_answered};
ghost use Rattle.stitch_result_checks.specs.Stitched.{StitchReady, BodyStitched};

use body_checks::first_failing;
use refusals::Refusal;
use stitch_accepted::{stitch_nothing, stitch_open};
use stitch_definition::Sizes;

// A body of v vertices and m rows is stitched; a sag not above 0 splits nothing.
fn stitch_rows(
    rows: &[u32],
    positions: &[f32],
    normals: &[f32],
    indices: &[u32],
    sag: f64,
    out_rows: &mut [u32],
    out_positions: &mut [f32],
    out_normals: &mut [f32],
    out_indices: &mut [u32],
    w: &mut [u64],
    v: usize,
    m: usize,
) -> Result<Sizes, Refusal>
    requires { StitchReady rows.now positions.now normals.now indices.now w.old v m }
    ensures { BodyStitched (stitch_body sag (names key positions.now)
        (patches_of (rows_of rows.now) positions.now normals.now indices.now))
        out_rows.old out_rows.new out_positions.old out_positions.new out_normals.old
        out_normals.new
        out_indices.old out_indices.new (16 * length indices.now + 16 * m + 4 * v) w.old w.new (numbered result) }
{
    if sag > 0.0 {
        return stitch_open(
            rows,
            positions,
            normals,
            indices,
            sag,
            out_rows,
            out_positions,
            out_normals,
            out_indices,
            w,
            v,
            m,
        );
    }
    stitch_nothing(
        rows,
        positions,
        normals,
        indices,
        out_rows,
        out_positions,
        out_normals,
        out_indices,
        w,
        v,
        m,
    )
}

// An accepted body is stitched, and the words of the work area that it needs become 0.
fn stitch_accepted(
    rows: &[u32],
    positions: &[f32],
    normals: &[f32],
    indices: &[u32],
    sag: f64,
    out_rows: &mut [u32],
    out_positions: &mut [f32],
    out_normals: &mut [f32],
    out_indices: &mut [u32],
    work: &mut [u64],
) -> Result<Sizes, Refusal>
    requires { Passed rows.now positions.now normals.now indices.now (length work.old) }
    ensures { left_stitch (numbered result) (slices_of out_rows.new out_positions.new out_normals.new out_indices.new
        work.new)
        ≡ stitch_answered (stitch_accepted rows.now positions.now normals.now indices.now sag
        (slices_of out_rows.old out_positions.old out_normals.old out_indices.old work.old)) }
{
    let v = body_rows::total_vertices(rows);
    let m = body_rows::row_count(rows);
    let answer = stitch_rows(
        rows,
        positions,
        normals,
        indices,
        sag,
        out_rows,
        out_positions,
        out_normals,
        out_indices,
        work,
        v,
        m,
    );
    body_checks::clear_words(rows, work);
    answer
}

// Cracks between the patches of a body are closed: points of its open edges that stand in an edge split the edge's triangle.
// The stitched body goes to the second slices. A body that fails a check is refused with the first that it fails, and the second slices keep their content.
pub fn stitch(
    rows: &[u32],
    positions: &[f32],
    normals: &[f32],
    indices: &[u32],
    sag: f64,
    out_rows: &mut [u32],
    out_positions: &mut [f32],
    out_normals: &mut [f32],
    out_indices: &mut [u32],
    work: &mut [u64],
) -> Result<Sizes, Refusal>
    ensures { left_stitch (numbered result) (slices_of out_rows.new out_positions.new out_normals.new out_indices.new
        work.new)
        ≡ stitch_answered (stitch_of key rows.now positions.now normals.now indices.now sag
        (slices_of out_rows.old out_positions.old out_normals.old out_indices.old work.old)) }
{
    first_failing(rows, positions, normals, indices, work.len())?;
    stitch_accepted(
        rows,
        positions,
        normals,
        indices,
        sag,
        out_rows,
        out_positions,
        out_normals,
        out_indices,
        work,
    )
}
