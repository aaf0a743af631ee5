// One word of a use: the name of its edge, or the way it runs.

ghost use Rattle.std.specs.Prelude.{◌≡◌, ◌+◌, get_or};
ghost use Rattle.edge_uses.specs.Named.{Ends, edge_name, run_of, PointReady};

use edge_uses::{DOWNWARD, EQUAL_ENDS, MOST_POINTS, UPWARD};

// The name of the edge between two points of a shell, the same both ways round.
#[tactic(auto, unfolding(edge_uses::specs::Named::edge_name))]
pub fn edge_name(shell: u64, a: u64, b: u64) -> u64
    requires { Ends shell a b }
    ensures { result ≡ edge_name shell a b }
{
    (shell * MOST_POINTS + a.min(b)) * MOST_POINTS + a.max(b)
}

// Which way a use between two points runs: 0 upward, 1 downward, 2 where they are equal.
pub fn edge_run(a: u64, b: u64) -> u64
    ensures { result ≡ run_of a b }
{
    if a == b {
        return EQUAL_ENDS;
    }
    if a < b {
        return UPWARD;
    }
    DOWNWARD
}

// The point of the vertex that index k is of.
pub fn point_at(indices: &[u32], w: &[u64], points: usize, k: usize) -> u64
    requires { PointReady indices.now w.now points k }
    ensures { result ≡ get_or w.now (points + get_or indices.now k 0) 0 }
{
    w[points + indices[k] as usize]
}
