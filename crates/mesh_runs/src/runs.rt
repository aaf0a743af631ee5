// The run of one material: the indices of its rows, in row order.

ghost use Rattle.mesh_runs.specs.Runs.{RowRunnable, RowRun, RunWritable, RunWritten};

use mesh_material_order::{INDICES, ROWS};

// Where a run's words and its indices end.
#[derive(Clone, Copy)]
pub struct RunEnd {
    pub place: usize,
    pub end: usize,
}

// A row's indices, moved by `base`, are written to `out` from place o on, and o is kept at `place`. The answer is where the indices end then.
fn append_row(
    indices: &[u32],
    from: usize,
    to: usize,
    base: usize,
    w: &mut [u64],
    place: usize,
    out: &mut [u32],
    o: usize,
) -> usize
    requires { RowRunnable indices.now from to base w.old place out.old o }
    ensures { RowRun indices.now from to base w.old w.new place out.old out.new o result }
{
    w[place] = o as u64;
    slice_append::append_moved(indices, from, to, base as u32, out, o);
    o + (to - from)
}

// The indices of all rows with the decision `wanted`, whose words begin at place `first`, are written to `out` from place `start` on, and where each row's
// begin is kept from `starts` on.
pub fn write_run(
    rows: &[u32],
    indices: &[u32],
    w: &mut [u64],
    at: usize,
    starts: usize,
    order: usize,
    m: usize,
    first: usize,
    wanted: u64,
    out: &mut [u32],
    start: usize,
) -> RunEnd
    requires { RunWritable rows.now indices.now w.old at starts order m first wanted out.old start }
    ensures { RunWritten rows.now indices.now w.old w.new at starts order m wanted out.old
        out.new start result }
{
    let mut o = start;
    for p in first..m {
        let k = (w[order + p] % ROWS) as usize;
        if w[at + k] != wanted {
            return RunEnd { place: p, end: o };
        }
        let found = w[starts + k];
        let from = (found % INDICES) as usize;
        let to = from + body_rows::indices(rows, k) as usize;
        o = append_row(
            indices,
            from,
            to,
            (found / INDICES) as usize,
            w,
            starts + k,
            out,
            o,
        );
    }
    RunEnd { place: m, end: o }
}
