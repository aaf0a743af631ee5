// The volume of a group, and whether its colours are inverted.

ghost use Rattle.std.specs.Prelude.{◌≡◌};
ghost use Rattle.body_rows.specs.Patches.{shapes};
ghost use Rattle.lists.specs.Lists.{sum_of};
ghost use Rattle.patch_measures.specs.Volume.{patch_volume};
ghost use Rattle.patch_geometry.specs.Geometry.{zero64};
ghost use Rattle.turn_walk.specs.Group.{queue_of, colours_of};
ghost use Rattle.turn_definition.specs.Inversion.{patch_at, volume_from, inverts};
ghost use Rattle.turn_inversion.specs.Measured.{RowMeasurable, GroupMeasurable, weight_of, RowWeighable, GroupWeighable};

use turn_walk::{COLOURED, PLAIN, Regions};

// The volume of row x's patch, reversed where flip says so.
fn row_volume(
    rows: &[u32],
    positions: &[f32],
    indices: &[u32],
    w: &[u64],
    regions: Regions,
    x: usize,
    flip: bool,
) -> f64
    requires { RowMeasurable rows.now positions.now indices.now w.now regions.uses regions.rows x }
    ensures { result ≡ patch_volume (patch_at (shapes rows.now positions.now indices.now) x).positions
        (patch_at (shapes rows.now positions.now indices.now) x).indices flip }
{
    let v = 3 * w[regions.vertex_bases() + x] as usize;
    let vend = v + 3 * body_rows::vertices(rows, x) as usize;
    let i = w[regions.index_bases() + x] as usize;
    let iend = i + body_rows::indices(rows, x) as usize;
    patch_volume::patch_volume(&positions[v..vend], &indices[i..iend], flip)
}

// V: the volumes of the first t rows of the queue, added in walk order, coloured rows reversed.
pub fn group_volume(
    rows: &[u32],
    positions: &[f32],
    indices: &[u32],
    w: &[u64],
    regions: Regions,
    t: usize,
) -> f64
    requires { GroupMeasurable rows.now positions.now indices.now w.now regions.uses regions.rows t }
    ensures { result ≡ volume_from (shapes rows.now positions.now indices.now) (colours_of regions.uses regions.rows w.now) zero64
        (queue_of regions.uses regions.rows t w.now) }
{
    let mut v = 0.0f64;
    for k in 0..t {
        let x = turn_colours::queued(w, regions, k);
        let c = turn_colours::colour(w, regions, x);
        v = v + row_volume(rows, positions, indices, w, regions, x, c == COLOURED);
    }
    v
}

// The indices of row x if its colour is c, else 0.
fn weight(rows: &[u32], w: &[u64], regions: Regions, x: usize, c: u64) -> u32
    requires { RowWeighable rows.now w.now regions.uses regions.rows x }
    ensures { result ≡ weight_of rows.now (colours_of regions.uses regions.rows w.now) c x }
{
    if turn_colours::colour(w, regions, x) == c {
        return body_rows::indices(rows, x);
    }
    0
}

// How many indices the rows of colour c among the first t of the queue hold.
fn weigh(rows: &[u32], w: &[u64], regions: Regions, t: usize, c: u64) -> u64
    requires { GroupWeighable rows.now w.now regions.uses regions.rows t }
    ensures { result ≡ sum_of (weight_of rows.now (colours_of regions.uses regions.rows w.now) c) (queue_of regions.uses regions.rows t w.now) }
{
    let mut sum = 0u64;
    for k in 0..t {
        let x = turn_colours::queued(w, regions, k);
        sum += weight(rows, w, regions, x, c) as u64;
    }
    sum
}

// Whether the colours of the first t rows of the queue are inverted: V is below 0, or it is 0 and coloured rows hold more indices.
pub fn inverts_group(
    rows: &[u32],
    positions: &[f32],
    indices: &[u32],
    w: &[u64],
    regions: Regions,
    t: usize,
) -> bool
    requires { GroupMeasurable rows.now positions.now indices.now w.now regions.uses regions.rows t }
    ensures { result ≡ inverts (shapes rows.now positions.now indices.now) (colours_of regions.uses regions.rows w.now)
        (queue_of regions.uses regions.rows t w.now)
        (volume_from (shapes rows.now positions.now indices.now) (colours_of regions.uses regions.rows w.now) zero64
        (queue_of regions.uses regions.rows t w.now)) }
{
    let v = group_volume(rows, positions, indices, w, regions, t);
    if v < 0.0 {
        return true;
    }
    if v > 0.0 {
        return false;
    }
    let plain = weigh(rows, w, regions, t, PLAIN);
    let coloured = weigh(rows, w, regions, t, COLOURED);
    plain < coloured
}
