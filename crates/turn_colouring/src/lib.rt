// The rows of a body coloured: its uses laid out, its groups walked, measured and inverted.
#![tactic(auto)]

ghost use Rattle.turn_colouring.specs.Coloured.{Coloured};
ghost use Rattle.edge_uses.specs.Area.{AreaReady};

use join_definition::JOIN_WORDS;
use turn_walk::Regions;

// The rows of a body of v vertices and m rows get their colours in the work area; the answer is how often a pair that contradicts them was met.
pub fn colour_rows(
    rows: &[u32],
    positions: &[f32],
    indices: &[u32],
    w: &mut [u64],
    v: usize,
    m: usize,
) -> u64
    requires { AreaReady rows.now positions.now indices.now w.old v m }
    ensures { Coloured rows.now positions.now indices.now v m w.old w.new result }
{
    let n = indices.len();
    let at = JOIN_WORDS * v + JOIN_WORDS * m + n;
    let regions = Regions { uses: n, rows: m };
    let end = at + regions.end();
    turn_pairs::lay_uses(rows, positions, indices, w, v, m);
    turn_groups::walk_groups(rows, positions, indices, &mut w[at..end], regions)
}
