// One group after another: walked, measured, inverted if its volume says so.

ghost use Rattle.turn_groups.specs.Settled.{Judgeable, Judged, Settleable, Settled};
ghost use Rattle.turn_groups.specs.Walked.{RootReady, RootSettled, GroupsReady, GroupsWalked, BasesReady, BasesLaid, Walkable};

use turn_walk::{Regions, UNVISITED};

// The first t rows of the queue get the other colour if their volume says so.
fn invert_if(
    rows: &[u32],
    positions: &[f32],
    indices: &[u32],
    w: &mut [u64],
    regions: Regions,
    t: usize,
)
    requires { Judgeable rows.now positions.now indices.now w.old regions.uses regions.rows t }
    ensures { Judged rows.now positions.now indices.now regions.uses regions.rows t w.old w.new }
{
    let inverted = turn_inversion::inverts_group(rows, positions, indices, w, regions, t);
    if inverted {
        turn_colours::invert_group(w, regions, t);
        return;
    }
}

// The group of row `root` is walked after `against` contradictions, and inverted if its volume says so; the answer is the contradictions then.
fn settle_group(
    rows: &[u32],
    positions: &[f32],
    indices: &[u32],
    w: &mut [u64],
    regions: Regions,
    root: usize,
    against: u64,
) -> u64
    requires { Settleable rows.now positions.now indices.now w.old regions.uses regions.rows root against }
    ensures { Settled rows.now positions.now indices.now regions.uses regions.rows root against w.old w.new result }
{
    let tally = turn_visit::walk_group(w, regions, root, against);
    invert_if(rows, positions, indices, w, regions, tally.found);
    tally.against
}

// Row `k`, if it takes part and no walk has met it, is the root of a group, which is settled after `against` contradictions; the answer is the contradictions
// then.
fn settle_root(
    rows: &[u32],
    positions: &[f32],
    indices: &[u32],
    w: &mut [u64],
    regions: Regions,
    k: usize,
    against: u64,
) -> u64
    requires { RootReady rows.now positions.now indices.now w.old regions.uses regions.rows k against }
    ensures { RootSettled rows.now positions.now indices.now regions.uses regions.rows k against w.old w.new result }
{
    let count = body_rows::indices(rows, k);
    if count == 0 {
        return against;
    }
    let colour = turn_colours::colour(w, regions, k);
    if colour == UNVISITED {
        return settle_group(rows, positions, indices, w, regions, k, against);
    }
    against
}

// The groups of all rows are settled, each from its lowest row; the answer is how often a pair that contradicts colours was met.
fn settle_groups(
    rows: &[u32],
    positions: &[f32],
    indices: &[u32],
    w: &mut [u64],
    regions: Regions,
) -> u64
    requires { GroupsReady rows.now positions.now indices.now w.old regions.uses regions.rows }
    ensures { GroupsWalked rows.now positions.now indices.now regions.uses regions.rows w.old w.new result }
{
    let mut against = 0u64;
    for k in 0..regions.rows {
        against = settle_root(rows, positions, indices, w, regions, k, against);
    }
    against
}

// Where each row's vertices and indices start goes behind the walk's regions.
fn lay_bases(rows: &[u32], w: &mut [u64], regions: Regions)
    requires { BasesReady rows.now w.old regions.uses regions.rows }
    ensures { BasesLaid rows.now regions.uses regions.rows w.old w.new }
{
    let vertices = regions.vertex_bases();
    let indices = regions.index_bases();
    let end = regions.end();
    body_rows::vertex_bases(rows, &mut w[vertices..indices]);
    body_rows::index_bases(rows, &mut w[indices..end]);
}

// The uses that stand in the work area are paired and the groups of all rows walked and settled; the answer is how often a pair that contradicts colours was
// met.
pub fn walk_groups(
    rows: &[u32],
    positions: &[f32],
    indices: &[u32],
    w: &mut [u64],
    regions: Regions,
) -> u64
    requires { Walkable rows.now positions.now indices.now w.old regions.uses regions.rows }
    ensures { GroupsWalked rows.now positions.now indices.now regions.uses regions.rows w.old w.new result }
{
    turn_chains::chain_pairs(w, regions);
    turn_colours::uncolour(w, regions);
    lay_bases(rows, w, regions);
    settle_groups(rows, positions, indices, w, regions)
}
