// The edges of a mesh counted from the words of their uses.
#![tactic(auto)]

ghost use Rattle.std.specs.Prelude.{◌≡◌};
ghost use Rattle.mesh_tally.specs.Tally.{Few, UseReady, TallyReady, Tallied, counts_in, with_edge, with_use};

use edge_uses::{EQUAL_ENDS, RUNS_AFTER_FIRSTS};

// How many edges there are, how many of them are open (one use), and how many are over (more than two).
#[derive(Clone, Copy, Default)]
pub struct EdgeCounts {
    pub edges: u64,
    pub opens: u64,
    pub overs: u64,
}

// The counts with one edge more, which has so many uses.
fn with_edge(c: EdgeCounts, uses: u64) -> EdgeCounts
    requires { Few c }
    ensures { counts_in result ≡ with_edge uses (counts_in c) }
{
    if uses == 1 {
        return EdgeCounts {
            edges: c.edges + 1,
            opens: c.opens + 1,
            ..c
        };
    }
    if uses > 2 {
        return EdgeCounts {
            edges: c.edges + 1,
            overs: c.overs + 1,
            ..c
        };
    }
    EdgeCounts {
        edges: c.edges + 1,
        ..c
    }
}

// The counts after use i: its edge counts if its ends differ and no use before it is of the same edge.
fn with_use(w: &[u64], at: usize, n: usize, i: usize, c: EdgeCounts) -> EdgeCounts
    requires { UseReady w.now at n i c }
    ensures { counts_in result ≡ with_use w.now at n i (counts_in c) }
{
    if w[at + RUNS_AFTER_FIRSTS * n + i] == EQUAL_ENDS {
        return c;
    }
    if w[at + i] == i as u64 {
        return with_edge(c, w[at + n + i]);
    }
    c
}

// The counts over n uses: their first uses stand from `at` on, at each first use how many uses its edge has, and their runs behind these.
pub fn tally(w: &[u64], at: usize, n: usize) -> EdgeCounts
    requires { TallyReady w.now at n }
    ensures { Tallied w.now at n result }
{
    let mut c = EdgeCounts::default();
    for i in 0..n {
        c = with_use(w, at, n, i, c);
    }
    c
}
