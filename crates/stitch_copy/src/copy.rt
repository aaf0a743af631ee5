// A body copied to the slices that stitch writes.

ghost use Rattle.stitch_copy.specs.Copied.{BodyCopied, BodyRoom};

// The table, positions, normals and indices become the first of the slices to write.
pub fn copy_body(
    rows: &[u32],
    positions: &[f32],
    normals: &[f32],
    indices: &[u32],
    out_rows: &mut [u32],
    out_positions: &mut [f32],
    out_normals: &mut [f32],
    out_indices: &mut [u32],
)
    requires { BodyRoom rows.now positions.now normals.now indices.now out_rows.old out_positions.old out_normals.old
        out_indices.old }
    ensures { BodyCopied rows.now positions.now normals.now indices.now
        out_rows.old out_positions.old out_normals.old out_indices.old
        out_rows.new out_positions.new out_normals.new out_indices.new }
{
    slice_front::copy(rows, out_rows);
    slice_front::copy(positions, out_positions);
    slice_front::copy(normals, out_normals);
    slice_front::copy(indices, out_indices);
}
