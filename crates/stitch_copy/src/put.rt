// The stitched body put into the second slices.

ghost use Rattle.stitch_write.specs.ByFinder.{BodyWritten};
ghost use Rattle.stitch_copy.specs.Put.{Puttable};

use crate::copy::copy_body;
use stitch_splits::Finder;
use stitch_write::write_body;

// The stitched body with `kept` new vertices is written; without one it is the body, which is copied.
pub fn put_body(
    rows: &[u32],
    positions: &[f32],
    normals: &[f32],
    indices: &[u32],
    w: &mut [u64],
    f: Finder,
    kept: usize,
    out_rows: &mut [u32],
    out_positions: &mut [f32],
    out_normals: &mut [f32],
    out_indices: &mut [u32],
)
    requires { Puttable rows.now positions.now normals.now indices.now f kept
        w.old out_rows.old out_positions.old out_normals.old out_indices.old }
    ensures { BodyWritten rows.now positions.now normals.now indices.now f
        w.old w.new out_rows.old out_rows.new out_positions.old out_positions.new
        out_normals.old out_normals.new out_indices.old out_indices.new }
{
    if kept == 0 {
        copy_body(
            rows,
            positions,
            normals,
            indices,
            out_rows,
            out_positions,
            out_normals,
            out_indices,
        );
        return;
    }
    write_body(
        rows,
        positions,
        normals,
        indices,
        w,
        f,
        out_rows,
        out_positions,
        out_normals,
        out_indices,
    );
}
