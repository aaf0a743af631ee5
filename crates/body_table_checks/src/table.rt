// Checks 11 to 15: the table, the lengths of the slices, and the bins.

ghost use Rattle.std.specs.Prelude.{◌≡◌, ◌<◌, length};
ghost use Rattle.lists.specs.Lists.{any};
ghost use Rattle.body_rows.specs.Body.{all_indices, all_vertices, first_failing, rows_of};
ghost use Rattle.body_refusals.specs.TableChecks.{bad_bin, bad_row, table_checks, too_large};
ghost use Rattle.body_table_checks.specs.TableTests.{not_whole, wrong_lengths};
ghost use Rattle.body_rows.specs.Rows.{WholeRows, row_at};
ghost use Rattle.refusals.specs.Numbers.{failing};

use crate::limits::{MOST_BIN, MOST_OUTCOME, MOST_ROWS, too_many};
use body_rows::{
    ROW_WIDTH, bin, indices, outcome, row_count, total_indices, total_vertices, vertices,
};
use refusals::Refusal;

// 11: whether the table isn't whole rows, or has too many.
fn not_whole(table: &[u32]) -> bool
    ensures { result ≡ not_whole table.now }
{
    if table.len() % ROW_WIDTH != 0 {
        return true;
    }
    row_count(table) > MOST_ROWS
}

// 12: whether row k has an outcome above 255, or has failed and has a count other than 0.
fn bad_row(table: &[u32], k: usize) -> bool
    requires { k < length (rows_of table.now) }
    ensures { result ≡ bad_row (row_at table.now k) }
{
    let o = outcome(table, k);
    if o > MOST_OUTCOME {
        return true;
    }
    if o == 0 {
        return false;
    }
    vertices(table, k) as u64 + indices(table, k) as u64 != 0
}

// 12: whether a row is bad.
fn any_bad_row(table: &[u32]) -> bool
    ensures { result ≡ any bad_row (rows_of table.now) }
{
    let n = row_count(table);
    for k in 0..n {
        if bad_row(table, k) {
            return true;
        }
    }
    false
}

// 13: whether the rows have too many vertices or indices.
fn too_large(table: &[u32]) -> bool
    requires { WholeRows table.now }
    ensures { result ≡ too_large (all_vertices (rows_of table.now)) (all_indices (rows_of table.now)) }
{
    too_many(total_vertices(table), total_indices(table))
}

// 14: whether a slice is not as long as the rows say.
fn wrong_lengths(table: &[u32], positions: &[f32], normals: &[f32], indices: &[u32]) -> bool
    requires { WholeRows table.now }
    ensures { result ≡ wrong_lengths (rows_of table.now) positions.now normals.now indices.now }
{
    let v = total_vertices(table);
    if positions.len() != 3 * v {
        return true;
    }
    if normals.len() != 3 * v {
        return true;
    }
    indices.len() != total_indices(table)
}

// 15: whether row k has a bin above 65,535.
fn bad_bin(table: &[u32], k: usize) -> bool
    requires { k < length (rows_of table.now) }
    ensures { result ≡ bad_bin (row_at table.now k) }
{
    bin(table, k) > MOST_BIN
}

// 15: whether a bin is too high.
fn any_bad_bin(table: &[u32]) -> bool
    ensures { result ≡ any bad_bin (rows_of table.now) }
{
    let n = row_count(table);
    for k in 0..n {
        if bad_bin(table, k) {
            return true;
        }
    }
    false
}

// The first of the checks 11 to 15 that fails, as a refusal.
pub fn table_failing(
    table: &[u32],
    positions: &[f32],
    normals: &[f32],
    indices: &[u32],
) -> Result<(), Refusal>
    ensures { failing result ≡ first_failing (table_checks table.now (rows_of table.now) positions.now normals.now
        indices.now) }
{
    if not_whole(table) {
        return Err(Refusal::Table);
    }
    if any_bad_row(table) {
        return Err(Refusal::Outcome);
    }
    if too_large(table) {
        return Err(Refusal::Limit);
    }
    if wrong_lengths(table, positions, normals, indices) {
        return Err(Refusal::Lengths);
    }
    if any_bad_bin(table) {
        return Err(Refusal::Bin);
    }
    Ok(())
}
