// The edges of a mesh counted in the work area.

ghost use Rattle.join_definition.specs.Join.{RoomAt};
ghost use Rattle.std.specs.Prelude.{◌≡◌};
ghost use Rattle.lists.specs.Lists.{any};
ghost use Rattle.point_rules.specs.Points.{bits};
ghost use Rattle.point_rules.specs.Zeros.{minus_zero};
ghost use Rattle.mesh_counts.specs.Counts.{closed_by, counts_of};
ghost use Rattle.mesh_tally.specs.Tally.{counts_in};
ghost use Rattle.mesh_edges.specs.Mesh.{ClosedTold, EdgesCounted, EdgesNamed, FirstsCounted, MeshCounted, MeshReady};

use edge_uses::{COUNTS, RUNS};
use float_steps::bits_of_f32;
use join_definition::JOIN_WORDS;
use join_points::vertices::Rule;
use mesh_tally::{EdgeCounts, tally};

// The bits of -0.0.
const MINUS_ZERO: u32 = 2147483648;

// The counts of a mesh's edges, and whether the mesh is closed.
#[derive(Clone, Copy)]
pub struct MeshEdges {
    pub counts: EdgeCounts,
    pub closed: bool,
}

// Whether a position is -0.0. All are looked at, without a jump, so that the processor takes several at a time.
fn any_minus_zero(positions: &[f32]) -> bool
    ensures { result ≡ any minus_zero positions.now }
{
    let mut found = false;
    for position in positions {
        found |= bits_of_f32(*position) == MINUS_ZERO;
    }
    found
}

// The v vertices are joined by a rule, and behind their table each use of an edge is named.
fn name_edges(rule: Rule, positions: &[f32], indices: &[u32], w: &mut [u64], v: usize)
    requires { MeshReady positions.now indices.now v w.old }
    ensures { EdgesNamed rule positions.now indices.now v w.old w.new }
{
    let n = indices.len();
    join_points::vertices::join_points(rule, positions, w, v);
    edge_use_words::name_row(indices, w, v, v, 0, n, JOIN_WORDS * v, 0);
}

// Behind n names at `at` come their first uses, and then how many have each as their first use.
fn count_firsts(w: &mut [u64], at: usize, n: usize)
    requires { RoomAt at n w.old }
    ensures { FirstsCounted at n w.old w.new }
{
    join_points::words::join_words_at(w, at, n);
    edge_use_counts::count_uses(w, at + n, at + COUNTS * n, n);
}

// The edges of a mesh of v vertices are counted, points being the same by a rule and edges with equal ends being skipped.
// The work area's first 4 v + 4 n words are written, for n indices.
fn count_edges(
    rule: Rule,
    positions: &[f32],
    indices: &[u32],
    w: &mut [u64],
    v: usize,
) -> EdgeCounts
    requires { MeshReady positions.now indices.now v w.old }
    ensures { MeshCounted rule positions.now indices.now v w.old result w.new }
{
    let n = indices.len();
    name_edges(rule, positions, indices, w, v);
    count_firsts(w, JOIN_WORDS * v, n);
    edge_use_words::run_row(indices, w, v, v, 0, n, JOIN_WORDS * v + RUNS * n);
    tally(w, JOIN_WORDS * v + n, n)
}

// Whether no edge is open and none is over.
fn is_closed(c: EdgeCounts) -> bool
    ensures { result ≡ closed_by (counts_in c) }
{
    (c.opens == 0) & (c.overs == 0)
}

// Whether a mesh is closed, for which the two zeros are one point: its edges are counted once more where they may differ from the counts c.
fn closed_mesh(positions: &[f32], indices: &[u32], w: &mut [u64], v: usize, c: EdgeCounts) -> bool
    requires mesh_ready { MeshReady positions.now indices.now v w.old }
    requires c_value { counts_in c ≡ counts_of bits positions.now indices.now }
    ensures { ClosedTold positions.now indices.now v w.old result w.new }
{
    if !any_minus_zero(positions) {
        return is_closed(c);
    }
    let z = count_edges(Rule::Zeros, positions, indices, w, v);
    is_closed(z)
}

// The edges of a mesh of v vertices, points being the same exactly if their bits agree, and whether it is closed.
// The work area's first 4 v + 4 n words are written, for n indices.
pub fn count_mesh(positions: &[f32], indices: &[u32], w: &mut [u64], v: usize) -> MeshEdges
    requires { MeshReady positions.now indices.now v w.old }
    ensures { EdgesCounted positions.now indices.now v w.old result w.new }
{
    let c = count_edges(Rule::Bits, positions, indices, w, v);
    let closed = closed_mesh(positions, indices, w, v, c);
    MeshEdges {
        counts: c,
        closed: closed,
    }
}
