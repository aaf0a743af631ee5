// The cracks of an accepted body closed, or the body copied, if the result passes its checks.

ghost use Rattle.std.specs.Prelude.{◌+◌, ◌*◌, length};
ghost use Rattle.refusals.specs.Numbers.{numbered};
ghost use Rattle.point_rules.specs.Rule.{names};
ghost use Rattle.point_rules.specs.Points.{key};
ghost use Rattle.body_rows.specs.Body.{rows_of, patches_of};
ghost use Rattle.stitch_definition.specs.StitchedBody.{stitched_body};
ghost use Rattle.stitch_result_checks.specs.Stitched.{StitchReady, BodyStitched};

use refusals::Refusal;
use stitch_copy::{copy_body, put_body};
use stitch_count::count_splits;
use stitch_count::prepare::prepare;
use stitch_definition::Sizes;
use stitch_result_checks::result_failing;
use stitch_triangle::Tally;

// The splits of a body of v vertices and m rows are found, and the stitched body is written if it passes its checks.
pub fn stitch_open(
    rows: &[u32],
    positions: &[f32],
    normals: &[f32],
    indices: &[u32],
    sag: f64,
    out_rows: &mut [u32],
    out_positions: &mut [f32],
    out_normals: &mut [f32],
    out_indices: &mut [u32],
    w: &mut [u64],
    v: usize,
    m: usize,
) -> Result<Sizes, Refusal>
    requires { StitchReady rows.now positions.now normals.now indices.now w.old v m }
    ensures { BodyStitched (stitched_body sag (names key positions.now)
        (patches_of (rows_of rows.now) positions.now normals.now indices.now))
        out_rows.old out_rows.new out_positions.old out_positions.new out_normals.old
        out_normals.new
        out_indices.old out_indices.new (16 * length indices.now + 16 * m + 4 * v) w.old w.new (numbered result) }
{
    let n = indices.len();
    let f = prepare(rows, positions, indices, w, v, m, sag);
    let t: Tally = count_splits(rows, positions, indices, w, f);
    let vertices = v + t.placed;
    let total = n + 3 * t.placed;
    result_failing(
        vertices,
        total,
        m,
        out_rows,
        out_positions,
        out_normals,
        out_indices,
    )?;
    put_body(
        rows,
        positions,
        normals,
        indices,
        w,
        f,
        t.placed,
        out_rows,
        out_positions,
        out_normals,
        out_indices,
    );
    Ok(Sizes {
        vertices: vertices as u32,
        indices: total as u32,
        splits: t.found,
    })
}

// A body of v vertices and m rows is copied if it passes the checks of the result.
pub fn stitch_nothing(
    rows: &[u32],
    positions: &[f32],
    normals: &[f32],
    indices: &[u32],
    out_rows: &mut [u32],
    out_positions: &mut [f32],
    out_normals: &mut [f32],
    out_indices: &mut [u32],
    w: &[u64],
    v: usize,
    m: usize,
) -> Result<Sizes, Refusal>
    requires { StitchReady rows.now positions.now normals.now indices.now w.now v m }
    ensures { BodyStitched (record {
      patches = patches_of (rows_of rows.now) positions.now normals.now
          indices.now;
      splits = 0;
    })
        out_rows.old out_rows.new out_positions.old out_positions.new out_normals.old
        out_normals.new
        out_indices.old out_indices.new (16 * length indices.now + 16 * m + 4 * v) w.now w.now (numbered result) }
{
    let n = indices.len();
    result_failing(v, n, m, out_rows, out_positions, out_normals, out_indices)?;
    copy_body(
        rows,
        positions,
        normals,
        indices,
        out_rows,
        out_positions,
        out_normals,
        out_indices,
    );
    Ok(Sizes {
        vertices: v as u32,
        indices: n as u32,
        splits: 0,
    })
}
