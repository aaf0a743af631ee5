// The failures of a body, in row order.

ghost use Rattle.std.specs.Prelude.{◌+◌, ◌*◌, ◌≤◌, length, []};
ghost use Rattle.slice_append.specs.Appended.{Appended};
ghost use Rattle.body_rows.specs.Rows.{row_at};
ghost use Rattle.body_rows.specs.Patches.{patch_from};
ghost use Rattle.mesh_acceptance.specs.Acceptance.{failure_width, failure_numbers};
ghost use Rattle.mesh_acceptance.specs.Judged.{FailureReady, FailureWritten, FailuresReady, FailuresWritten};

use mesh_acceptance::FAILURE_WIDTH;
use mesh_judge::row_verdict;
use mesh_materials::{BinId, FaceId};
use mesh_verdicts::{Failure, Reference};
use patch_geometry::Aabb;
use slice_append::put;

// A failure is written as row j of the table: face; bin; case, 0 for empty, 1 to 255 for upstream, 256 for an escape; the bits of reach and span, else 0.
fn put_failure(failures: &mut [u64], j: usize, face: FaceId, bin: BinId, failure: Failure)
    requires { failure_width * j + failure_width ≤ length failures.old }
    ensures { Appended (failure_width * j) (failure_numbers (record { face = face.0; bin = bin.0; failure = failure })) failures.old
        failures.new }
{
    let f = face.0 as u64;
    let b = bin.0 as u64;
    let o = FAILURE_WIDTH * j;
    match failure {
        Failure::Empty => put(failures, o, &[f, b, 0, 0, 0]),
        Failure::Upstream(n) => put(failures, o, &[f, b, n as u64, 0, 0]),
        Failure::Escape(reach, span) => put(
            failures,
            o,
            &[
                f,
                b,
                256,
                float_steps::bits_of_f64(reach),
                float_steps::bits_of_f64(span),
            ],
        ),
    }
}

// Row k's failure, if its decision d is 0, is written as row j of the table; the answer is how many rows the table has then.
fn append_failure(
    rows: &[u32],
    positions: &[f32],
    indices: &[u32],
    reference: Reference,
    k: usize,
    base: usize,
    i: usize,
    d: u64,
    failures: &mut [u64],
    j: usize,
) -> usize
    requires { FailureReady rows.now positions.now indices.now reference.aabb k base i d failures.old j }
    ensures { FailureWritten reference.aabb (patch_from (row_at rows.now k) positions.now [] indices.now base i) j
        failures.old failures.new result }
{
    if d != 0 {
        return j;
    }
    let verdict = row_verdict(rows, positions, indices, reference, k, base, i);
    match verdict {
        Ok(()) => j,
        Err(failure) => {
            put_failure(
                failures,
                j,
                FaceId(body_rows::face(rows, k)),
                BinId(body_rows::bin(rows, k)),
                failure,
            );
            j + 1
        }
    }
}

// The failures of all rows whose decision, from `at` on, is 0; the answer is how many there are.
pub fn write_failures(
    rows: &[u32],
    positions: &[f32],
    indices: &[u32],
    reference: Aabb,
    w: &[u64],
    at: usize,
    failures: &mut [u64],
) -> usize
    requires { FailuresReady rows.now positions.now indices.now reference w.now at failures.old }
    ensures { FailuresWritten rows.now positions.now indices.now reference failures.old
        failures.new result }
{
    let reference = Reference::new(reference);
    let m = body_rows::row_count(rows);
    let mut j = 0usize;
    let mut base = 0usize;
    let mut i = 0usize;
    for k in 0..m {
        let d = w[at + k];
        j = append_failure(
            rows, positions, indices, reference, k, base, i, d, failures, j,
        );
        base += body_rows::vertices(rows, k) as usize;
        i += body_rows::indices(rows, k) as usize;
    }
    j
}
