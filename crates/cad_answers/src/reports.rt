// The report's answer as its struct.

ghost use Rattle.std.specs.Prelude.{◌≡◌};
ghost use Rattle.refusals.specs.Numbers.{numbered};
ghost use Rattle.cad_answers.specs.Reports.{cad_reported, page_given};

use refusals::Refusal;
use report_definition::Page;

// 0 for the refusal and the page with the body added; or the refusal's number and zeros.
#[repr(C)]
#[derive(Clone, Copy, Default)]
pub struct CadReported {
    pub refusal: u32,
    pub bodies: u64,
    pub accepted: u64,
    pub failed: u64,
    pub triangles: u64,
    pub vertices: u64,
    pub empty: u64,
    pub upstream: u64,
    pub escaped: u64,
    pub listed: u64,
    pub share_accepted: u64,
    pub share_faces: u64,
}

// The page with these numbers; its share is not read, so it is the empty page's.
pub fn page_of(
    bodies: u64,
    accepted: u64,
    failed: u64,
    triangles: u64,
    vertices: u64,
    empty: u64,
    upstream: u64,
    escaped: u64,
    listed: u64,
) -> Page
    ensures { result ≡ page_given bodies accepted failed triangles vertices empty upstream escaped listed }
{
    Page {
        bodies,
        accepted,
        failed,
        triangles,
        vertices,
        empty,
        upstream,
        escaped,
        listed,
        share_accepted: 1,
        share_faces: 1,
    }
}

impl From<Result<Page, Refusal>> for CadReported {
    ghost from_gives = { λ t r. r ≡ cad_reported (numbered t) };

    fn from(t: Result<Page, Refusal>) -> CadReported {
        match t {
            Ok(p) => CadReported {
                refusal: 0,
                bodies: p.bodies,
                accepted: p.accepted,
                failed: p.failed,
                triangles: p.triangles,
                vertices: p.vertices,
                empty: p.empty,
                upstream: p.upstream,
                escaped: p.escaped,
                listed: p.listed,
                share_accepted: p.share_accepted,
                share_faces: p.share_faces,
            },
            Err(refusal) => CadReported {
                refusal: refusal.number(),
                ..CadReported::default()
            },
        }
    }
}
