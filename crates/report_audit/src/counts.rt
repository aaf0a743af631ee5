// The marks of all uses counted, each at the first row of its face number.

ghost use Rattle.std.specs.Prelude.{◌≡◌};
ghost use Rattle.report_audit.specs.Counts.{alike_at, marked_at, UseReady, MarkReady, CountsReady, MarksCounted};

use edge_use_counts::count_one;
use edge_uses::EQUAL_ENDS;

// Whether use i is a later use of its edge and runs as the first one does: n first uses stand from `firsts` on, then rows and runs.
fn runs_alike(w: &[u64], firsts: usize, n: usize, i: usize) -> bool
    requires { UseReady w.now firsts n i }
    ensures { result ≡ alike_at w.now firsts n i }
{
    let first = w[firsts + i] as usize;
    let run = w[firsts + 2 * n + i];
    first != i && run != EQUAL_ENDS && w[firsts + 2 * n + first] == run
}

// A use that runs as the first use of its edge adds 1 to the count of its row's face, and 1 to that of the first use's row.
fn mark_use(w: &mut [u64], firsts: usize, n: usize, i: usize, heads: usize, counts: usize)
    requires { MarkReady w.old firsts n i heads counts }
    ensures { w.new ≡ marked_at w.old firsts n i heads counts }
{
    if runs_alike(w, firsts, n, i) {
        let first = w[firsts + i] as usize;
        let own = w[firsts + n + i] as usize;
        let far = w[firsts + n + first] as usize;
        count_one(w, heads, counts, own);
        count_one(w, heads, counts, far);
    }
}

// The marks of n uses are counted: the first of m rows' faces stand from `heads` on, and the counts go to `counts` on.
pub fn count_marks(w: &mut [u64], firsts: usize, n: usize, heads: usize, counts: usize, m: usize)
    requires { CountsReady w.old firsts n heads counts m }
    ensures { MarksCounted w.old firsts n heads counts m w.new }
{
    let end = counts + m;
    slice_fill::fill(w, counts, end, 0);
    for i in 0..n {
        mark_use(w, firsts, n, i, heads, counts);
    }
}
