// Checks 21 to 24: the patches' index counts, indices, positions and normals.

ghost use Rattle.std.specs.Prelude.{◌≡◌, ◌||◌, [], ◌<◌, take, drop, leb};
ghost use Rattle.lists.specs.Lists.{any};
ghost use Rattle.point_rules.specs.Points.{clamps};
ghost use Rattle.body_table_checks.specs.Tabled.{Tabled};
ghost use Rattle.body_refusals.specs.PatchChecks.{bad_indices, patch_checks};
ghost use Rattle.body_rows.specs.Body.{first_failing, patches_of, rows_of};
ghost use Rattle.body_patch_checks.specs.PatchTests.{not_finite, part_triangle};
ghost use Rattle.body_rows.specs.Patches.{IndicesFit, IndicesOfRow};
ghost use Rattle.body_rows.specs.Rows.{row_at};
ghost use Rattle.refusals.specs.Numbers.{failing};

use body_rows::{indices, row_count, vertices};
use refusals::Refusal;

// 21: whether a row's index count isn't a multiple of 3.
fn any_part_triangle(table: &[u32]) -> bool
    ensures { result ≡ any part_triangle (rows_of table.now) }
{
    let n = row_count(table);
    for k in 0..n {
        if indices(table, k) % 3 != 0 {
            return true;
        }
    }
    false
}

// Whether a number of s is at least n.
pub fn any_at_least(s: &[u32], n: u32) -> bool
    ensures { result ≡ any (λ i. leb n i) s.now }
{
    for i in s {
        if n <= *i {
            return true;
        }
    }
    false
}

// 22: whether an index of row k, whose indices start at base, isn't below the row's vertex count.
fn bad_indices(table: &[u32], all: &[u32], k: usize, base: usize) -> bool
    requires { IndicesOfRow table.now all.now k base }
    ensures { result ≡ any (λ i. leb (row_at table.now k).vertices i)
        (take (row_at table.now k).indices (drop base all.now)) }
{
    let n = indices(table, k) as usize;
    any_at_least(&all[base..base + n], vertices(table, k))
}

// 22: whether an index isn't below its row's vertex count.
fn any_bad_index(table: &[u32], all: &[u32]) -> bool
    requires { IndicesFit table.now all.now }
    ensures { result ≡ any bad_indices (patches_of (rows_of table.now) [] [] all.now) }
{
    let n = row_count(table);
    let mut base = 0usize;
    for k in 0..n {
        if bad_indices(table, all, k, base) {
            return true;
        }
        base += indices(table, k) as usize;
    }
    false
}

// 23: whether a number of s isn't finite. All are looked at, without a jump, so that the processor takes several at a time.
fn any_not_finite(s: &[f32]) -> bool
    ensures { result ≡ any not_finite s.now }
{
    let mut found = false;
    for x in s {
        found = found | !float_steps::is_finite_f32(*x);
    }
    found
}

// 23: whether a position or a normal isn't finite.
pub fn any_number_not_finite(positions: &[f32], normals: &[f32]) -> bool
    ensures { result ≡ (any not_finite positions.now || any not_finite normals.now) }
{
    if any_not_finite(positions) {
        return true;
    }
    any_not_finite(normals)
}

// 24: whether a position's cell is clamped. All are looked at, without a jump.
pub fn any_clamps(positions: &[f32]) -> bool
    ensures { result ≡ any clamps positions.now }
{
    let mut found = false;
    for v in positions {
        found = found | point_cell::clamps(*v);
    }
    found
}

// The first of the checks 21 to 24 that fails, as a refusal.
pub fn patch_failing(
    table: &[u32],
    positions: &[f32],
    normals: &[f32],
    indices: &[u32],
) -> Result<(), Refusal>
    requires { Tabled table.now positions.now normals.now indices.now }
    ensures { failing result ≡ first_failing (patch_checks (patches_of (rows_of table.now) positions.now normals.now
        indices.now)) }
{
    if any_part_triangle(table) {
        return Err(Refusal::Triangles);
    }
    if any_bad_index(table, indices) {
        return Err(Refusal::Index);
    }
    if any_number_not_finite(positions, normals) {
        return Err(Refusal::NotFinite);
    }
    if any_clamps(positions) {
        return Err(Refusal::Clamped);
    }
    Ok(())
}
