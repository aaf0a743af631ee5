// The call: checks, the audit, the list, the page.

ghost use Rattle.std.specs.Prelude.{◌≡◌, length};
ghost use Rattle.point_rules.specs.Points.{key};
ghost use Rattle.body_rows.specs.Body.{all_vertices, rows_of};
ghost use Rattle.body_rows.specs.Rows.{WholeRows};
ghost use Rattle.refusals.specs.Numbers.{numbered};
ghost use Rattle.report_definition.specs.Report.{left_report, report_of};
ghost use Rattle.report_audit.specs.Audited.{entries_at};
ghost use Rattle.report.specs.Bodies.{IndicesFew, body_of};

use crate::list::{ENTRY_WIDTH, write_entries};
use body_checks::{clear_words, first_failing};
use body_rows::{row_count, total_vertices};
use join_definition::JOIN_WORDS;
use patch_geometry::Aabb;
use refusals::Refusal;
use report_audit::{ROW_WORDS, USE_WORDS, audit};
use report_definition::Page;
use report_page::{bad_page, count_rows, page_with};

// Where the entries of a body's audit stand in the work area, n being its indices.
fn entries_at(rows: &[u32], n: usize) -> usize
    requires whole_rows { WholeRows rows.now }
    requires indices_few { IndicesFew n }
    ensures { result ≡ entries_at (all_vertices (rows_of rows.now)) (length (rows_of rows.now)) n }
{
    JOIN_WORDS * total_vertices(rows) + ROW_WORDS * row_count(rows) + USE_WORDS * n
}

// The page with a stitched body added, and the body's wound faces behind those that the list has; or the first check that fails.
pub fn report(
    rows: &[u32],
    positions: &[f32],
    normals: &[f32],
    indices: &[u32],
    reference: Aabb,
    page: Page,
    list: &mut [u32],
    work: &mut [u64],
) -> Result<Page, Refusal>
    ensures { left_report (numbered result) list.new work.new
        ≡ report_of key page (body_of rows.now positions.now normals.now indices.now reference)
        list.old work.old }
{
    first_failing(rows, positions, normals, indices, work.len())?;
    if bad_page(page) {
        clear_words(rows, work);
        return Err(Refusal::Page);
    }
    let r = audit(rows, positions, indices, work);
    let listed = page.listed as usize;
    if list.len() / ENTRY_WIDTH < listed + r {
        clear_words(rows, work);
        return Err(Refusal::FaceList);
    }
    write_entries(work, entries_at(rows, indices.len()), r, list, listed);
    clear_words(rows, work);
    let counts = count_rows(rows, positions, indices, reference);
    Ok(page_with(page, counts, row_count(rows) as u64, r as u64))
}
