// What the rows of a body add to a page.

ghost use Rattle.std.specs.Prelude.{◌≡◌, [], ◌/◌};
ghost use Rattle.body_rows.specs.Rows.{row_at};
ghost use Rattle.body_rows.specs.Patches.{patch_from, shapes};
ghost use Rattle.mesh_verdicts.specs.Failures.{failure_of};
ghost use Rattle.report_definition.specs.Page.{body_sums};
ghost use Rattle.report_page.specs.Counts.{CountReady, Countable, FewCounts, accepted_with, counts_of, counts_with, failed_with};

use mesh_judge::row_verdict;
use mesh_verdicts::{Failure, Reference};
use patch_geometry::Aabb;

// How many rows are accepted, how many fail for each cause, and the triangles and vertices of the accepted ones.
#[derive(Clone, Copy, Default)]
pub struct RowCounts {
    pub accepted: u64,
    pub empty: u64,
    pub upstream: u64,
    pub escaped: u64,
    pub triangles: u64,
    pub vertices: u64,
}

// The counts with one more accepted row, which has so many triangles and vertices.
fn with_accepted(counts: RowCounts, triangles: u32, vertices: u32) -> RowCounts
    requires { FewCounts counts }
    ensures { result ≡ accepted_with triangles vertices counts }
{
    RowCounts {
        accepted: counts.accepted + 1,
        triangles: counts.triangles + triangles as u64,
        vertices: counts.vertices + vertices as u64,
        ..counts
    }
}

// The counts with one more row that failed.
fn with_failed(counts: RowCounts, failure: Failure) -> RowCounts
    requires { FewCounts counts }
    ensures { result ≡ failed_with failure counts }
{
    let mut c = counts;
    match failure {
        Failure::Empty => c.empty += 1,
        Failure::Upstream(_) => c.upstream += 1,
        Failure::Escape(_, _) => c.escaped += 1,
    }
    c
}

// The counts with row k, whose vertices start at `base` and whose indices at i.
fn count_row(
    rows: &[u32],
    positions: &[f32],
    indices: &[u32],
    reference: Reference,
    k: usize,
    base: usize,
    i: usize,
    counts: RowCounts,
) -> RowCounts
    requires { CountReady rows.now positions.now indices.now k base i counts }
    ensures { result ≡ counts_with
        (failure_of reference.aabb (patch_from (row_at rows.now k) positions.now [] indices.now base i))
        ((row_at rows.now k).indices / 3) (row_at rows.now k).vertices counts }
{
    let verdict = row_verdict(rows, positions, indices, reference, k, base, i);
    match verdict {
        Ok(()) => {
            let triangles = body_rows::indices(rows, k) / 3;
            with_accepted(counts, triangles, body_rows::vertices(rows, k))
        }
        Err(failure) => with_failed(counts, failure),
    }
}

// What all rows of a body with its box count.
pub fn count_rows(rows: &[u32], positions: &[f32], indices: &[u32], reference: Aabb) -> RowCounts
    requires { Countable rows.now positions.now indices.now }
    ensures { result ≡ counts_of (body_sums reference (shapes rows.now positions.now indices.now) 0) }
{
    let reference = Reference::new(reference);
    let m = body_rows::row_count(rows);
    let mut counts = RowCounts::default();
    let mut base = 0usize;
    let mut i = 0usize;
    for k in 0..m {
        counts = count_row(rows, positions, indices, reference, k, base, i, counts);
        base += body_rows::vertices(rows, k) as usize;
        i += body_rows::indices(rows, k) as usize;
    }
    counts
}
