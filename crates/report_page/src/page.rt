// Whether a page is refused, and the page with a body added.

ghost use Rattle.std.specs.Prelude.{◌≡◌, ltb};
ghost use Rattle.std.specs.List.{list_any};
ghost use Rattle.report_definition.specs.Page.{page_with, plus, sums_of};
ghost use Rattle.report_definition.specs.Report.{bad_page};
ghost use Rattle.report_page.specs.Adding.{PageReady, sums_with};

use crate::counts::RowCounts;
use crate::divisor::share_of;
use report_definition::Page;

// A page with so many bodies is full.
const MOST_BODIES: u64 = 4096;

// The most that a count may be for each body.
const MOST_OF_BODY: u64 = 262144;

// Whether one of some counts is above the most that it may be.
fn any_above(counts: &[u64], most: u64) -> bool
    ensures { result ≡ list_any (λ n. ltb most n) counts.now }
{
    counts.iter().any(|n| most < *n)
}

// Whether a page is refused with 67: it has 4,096 bodies or more, or a count above 262,144 times its bodies.
#[tactic(auto, using(crate::proofs::PageLaws::bad_full, crate::proofs::PageLaws::bad_counts))]
pub fn bad_page(page: Page) -> bool
    ensures { result ≡ bad_page page }
{
    if page.bodies >= MOST_BODIES {
        return true;
    }
    let counts = [
        page.accepted,
        page.failed,
        page.triangles,
        page.vertices,
        page.empty,
        page.upstream,
        page.escaped,
        page.listed,
    ];
    any_above(&counts, MOST_OF_BODY * page.bodies)
}

// The page with a body added: what its rows count, how many they are, and how many of its faces are listed.
pub fn page_with(page: Page, counts: RowCounts, faces: u64, listed: u64) -> Page
    requires { PageReady page counts faces listed }
    ensures { result ≡ page_with (plus (sums_of page) (sums_with counts faces listed)) }
{
    let accepted = page.accepted + counts.accepted;
    let failed = page.failed + (faces - counts.accepted);
    let share = share_of(accepted, accepted + failed);
    Page {
        bodies: page.bodies + 1,
        accepted,
        failed,
        triangles: page.triangles + counts.triangles,
        vertices: page.vertices + counts.vertices,
        empty: page.empty + counts.empty,
        upstream: page.upstream + counts.upstream,
        escaped: page.escaped + counts.escaped,
        listed: page.listed + listed,
        share_accepted: share.accepted,
        share_faces: share.faces,
    }
}
