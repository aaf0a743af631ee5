// The work area made ready for finding splits.

ghost use Rattle.stitch_count.specs.Prepared.{Preparable, Prepared};

use crate::ordering::order_loose;
use join_definition::JOIN_WORDS;
use stitch_splits::Finder;

// The regions of n words each behind the join of the vertices and a word for each row: three of the uses, of which later the loose vertices take the first and
// their words in the order of the search the second, a flag for each use, three of the placed points, three of their parameters, and the boxes.
const ORDER: usize = 1;

const FLAGS: usize = 3;

const ENTRIES: usize = 4;

const PARAMETERS: usize = 7;

const BOXES: usize = 10;

// The open edges of a body of v vertices and m rows are marked, and its loose vertices are listed and put in the order of the search; the answer says where
// they stand.
pub fn prepare(
    rows: &[u32],
    positions: &[f32],
    indices: &[u32],
    w: &mut [u64],
    v: usize,
    m: usize,
    sag: f64,
) -> Finder
    requires { Preparable rows.now positions.now indices.now w.old v m }
    ensures { Prepared rows.now positions.now indices.now sag v m w.old w.new result }
{
    let n = indices.len();
    let list = JOIN_WORDS * v + JOIN_WORDS * m;
    let order = list + ORDER * n;
    let flags = list + FLAGS * n;
    let boxes = list + BOXES * n;
    let beyond = stitch_sag::beyond_of(sag);
    stitch_open_edges::mark_open(rows, positions, indices, w, v, m);
    let count = stitch_gather::gather_loose(rows, indices, w, v, list, flags);
    let top = order_loose(positions, w, v, list, count, order, boxes);
    Finder {
        sag: sag,
        beyond: beyond,
        v: v,
        list: list,
        count: count,
        at: list + ENTRIES * n,
        ts: list + PARAMETERS * n,
        flags: flags,
        order: order,
        boxes: boxes,
        top: top,
    }
}
