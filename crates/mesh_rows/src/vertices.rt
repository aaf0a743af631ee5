// The vertices of the accepted rows, in row order.

ghost use Rattle.mesh_layout.specs.Written.{RowCopyable, RowCopied, VerticesWritable, VerticesWritten};

// A row's numbers, three for each of its vertices from `base` on, are written to `out` behind o vertices, if its decision d isn't 0.
// The answer is how many vertices stand there then.
fn append_row(
    numbers: &[f32],
    base: usize,
    vertices: usize,
    d: u64,
    out: &mut [f32],
    o: usize,
) -> usize
    requires { RowCopyable numbers.now base vertices d out.old o }
    ensures { RowCopied numbers.now base vertices d out.old o out.new result }
{
    if d == 0 {
        return o;
    }
    slice_append::put(out, 3 * o, &numbers[3 * base..3 * (base + vertices)]);
    o + vertices
}

// The positions or normals of all accepted rows are written to the front of `out`; the decisions stand from `at` on.
pub fn write_vertices(rows: &[u32], numbers: &[f32], w: &[u64], at: usize, out: &mut [f32])
    requires { VerticesWritable rows.now numbers.now w.now at out.old }
    ensures { VerticesWritten rows.now numbers.now w.now at out.old out.new }
{
    let m = body_rows::row_count(rows);
    let mut o = 0usize;
    let mut base = 0usize;
    for k in 0..m {
        let vertices = body_rows::vertices(rows, k) as usize;
        o = append_row(numbers, base, vertices, w[at + k], out, o);
        base += vertices;
    }
}
