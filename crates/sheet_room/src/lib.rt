// Whether the lent slices have room for every sheet within the limits, and hold what the reader counts.
#![tactic(auto)]

ghost use Rattle.std.specs.Prelude.{◌≡◌, ◌*◌, ◌≤◌, leb, length};
ghost use Rattle.body_rows.specs.Body.{row_width};
ghost use Rattle.body_refusals.specs.TableChecks.{most_rows};
ghost use Rattle.sheet_reader_state.specs.Limits.{Small};
ghost use Rattle.sheet_reader_state.specs.Slices.{counts_in, fits_in, in_limits, last_fits, of_bodies, room_for};

use body_rows::{INDICES_BACK, ROW_WIDTH, VERTICES_BACK};
use body_table_checks::{MOST_ROWS, too_many};
use sheet_line_order::Limits;
use sheet_reader_state::Reader;

// Whether a count is within its limit.
fn within(count: u32, limit: usize) -> bool
    ensures { result ≡ leb count limit }
{
    count as usize <= limit
}

// Whether the last row's counts are within the limits; without a row no line of a face has been read.
fn last_fits(limits: Limits, place: u32, rows: usize, table: &[u32]) -> bool
    requires rows_in_bounds { row_width * rows ≤ length table.now }
    requires rows_le_most_rows { rows ≤ most_rows }
    ensures { result ≡ last_fits limits place rows table.now }
{
    if rows == 0 {
        return place < 4;
    }
    within(table[ROW_WIDTH * rows - VERTICES_BACK], limits.vertices)
        && within(table[ROW_WIDTH * rows - INDICES_BACK], limits.indices)
}

// Whether a body may have so many rows, vertices and indices.
#[tactic(auto, unfolding(sheet_reader_state::specs::Slices::of_bodies))]
fn of_bodies(limits: Limits) -> bool
    ensures { result ≡ of_bodies limits }
{
    limits.rows <= MOST_ROWS && !too_many(limits.vertices, limits.indices)
}

// Whether slices of these lengths have room for the limits.
#[tactic(auto, unfolding(sheet_reader_state::specs::Slices::room_for))]
fn room_for(
    limits: Limits,
    table: usize,
    positions: usize,
    normals: usize,
    indices: usize,
    materials: usize,
) -> bool
    requires { Small limits }
    ensures { result ≡ room_for limits table positions normals indices materials }
{
    ROW_WIDTH * limits.rows <= table
        && 3 * limits.vertices <= positions
        && 3 * limits.vertices <= normals
        && limits.indices <= indices
        && (limits.face as usize) < materials
}

// Whether a reader counts no more than the limits.
#[tactic(auto, unfolding(sheet_reader_state::specs::Slices::counts_in))]
fn counts_in(limits: Limits, rows: usize, vertices: usize, indices: usize) -> bool
    ensures { result ≡ counts_in limits rows vertices indices }
{
    rows <= limits.rows && vertices <= limits.vertices && indices <= limits.indices
}

// Whether the limits are a body's, slices of these lengths have room for them, and the reader counts no more.
#[tactic(auto, unfolding(sheet_reader_state::specs::Slices::in_limits))]
pub fn in_limits(
    s: Reader,
    table: usize,
    positions: usize,
    normals: usize,
    indices: usize,
    materials: usize,
) -> bool
    ensures { result ≡ in_limits s table positions normals indices materials }
{
    let limits = s.limits;
    of_bodies(limits)
        && room_for(limits, table, positions, normals, indices, materials)
        && counts_in(limits, s.rows, s.vertices, s.indices)
}

// Whether the slices, of these lengths, have room and hold what the reader counts.
#[tactic(auto, unfolding(sheet_reader_state::specs::Slices::fits_in))]
pub fn fits(
    s: Reader,
    table: &[u32],
    positions: usize,
    normals: usize,
    indices: usize,
    materials: usize,
) -> bool
    ensures { result ≡ fits_in s table.now positions normals indices materials }
{
    in_limits(s, table.len(), positions, normals, indices, materials)
        && s.indices % 3 == 0
        && last_fits(s.limits, s.place, s.rows, table)
}
