// A stitched body added to the page over finished bodies.

ghost use Rattle.std.specs.Prelude.{◌≡◌};
ghost use Rattle.point_rules.specs.Points.{key};
ghost use Rattle.report_definition.specs.Report.{report_of};
ghost use Rattle.report.specs.Bodies.{body_of};
ghost use Rattle.cad_answers.specs.Answers.{box_of};
ghost use Rattle.cad_answers.specs.Reports.{cad_left_report, cad_report_answered, page_given};

use cad_answers::{CadReported, box_of, page_of};

// The page so far is given by its numbers, without the share, which is made anew. The body's faces that are wound against a neighbour go to the face list
// behind its first `listed` entries, two numbers each; the work area needs 16 words an index and a row and 4 a vertex, which come back zero.
#[unsafe(no_mangle)]
pub extern "C" fn cad_report(
    rows: &[u32],
    positions: &[f32],
    normals: &[f32],
    indices: &[u32],
    x0: f64,
    y0: f64,
    z0: f64,
    x1: f64,
    y1: f64,
    z1: f64,
    bodies: u64,
    accepted: u64,
    failed: u64,
    triangles: u64,
    vertices: u64,
    empty: u64,
    upstream: u64,
    escaped: u64,
    listed: u64,
    faces: &mut [u32],
    work: &mut [u64],
) -> CadReported
    ensures { cad_left_report result faces.new work.new
        ≡ cad_report_answered (report_of key (page_given bodies accepted failed triangles vertices empty upstream escaped listed)
        (body_of rows.now positions.now normals.now indices.now (box_of x0 y0 z0 x1 y1 z1))
        faces.old work.old) }
{
    let reference = box_of(x0, y0, z0, x1, y1, z1);
    let page = page_of(
        bodies, accepted, failed, triangles, vertices, empty, upstream, escaped, listed,
    );
    report::report(
        rows, positions, normals, indices, reference, page, faces, work,
    )
    .into()
}
