// The words of one row's uses, written behind what the work area holds already.

ghost use Rattle.std.specs.Prelude.{◌≡◌, ℕ, map, ◌+◌, ◌-◌, ◌<◌, take, drop};
ghost use Rattle.std.proofs.lemmas.List.Edits.{sets};
ghost use Rattle.body_rows.specs.Body.{triangles_of};
ghost use Rattle.edge_uses.specs.Edges.{Use, triangle_uses};
ghost use Rattle.edge_uses.specs.Named.{use_name, use_run, RowReady, NameReady};

use crate::words::{edge_name, edge_run, point_at};
use slice_append::put;

// The words of the uses of one row: its triangles' indices stand from `from` up to `to`, its vertices' points from `points` on in the work area,
// and the word of the use at index k, which `word` makes of the shell and the use's two points, goes to `at` + k.
fn write_row<F: Fn(u64, u64, u64) -> u64>(
    indices: &[u32],
    w: &mut [u64],
    points: usize,
    vertices: usize,
    from: usize,
    to: usize,
    at: usize,
    shell: u64,
    word: F,
)
    ghost word_of: { Use → ℕ }
    requires row { RowReady indices.now w.old points vertices from to at }
    requires callable { (a b : ℕ) → a < 262144 → b < 262144 → F.pre word shell a b }
    requires meant { (a b r : ℕ) → F.post word shell a b r → r ≡ word_of (record { shell = shell; row = 0; start = a; end = b }) }
    ensures { w.new ≡ sets w.old (at + from)
        (map word_of (triangle_uses shell 0 (drop points w.old) (triangles_of (take (to - from) (drop from indices.now))))) }
{
    for k in (from..to).step_by(3) {
        let a = point_at(indices, w, points, k);
        let b = point_at(indices, w, points, k + 1);
        let c = point_at(indices, w, points, k + 2);
        put(
            w,
            at + k,
            &[word(shell, a, b), word(shell, b, c), word(shell, c, a)],
        );
    }
}

// The names of the uses of one row.
pub fn name_row(
    indices: &[u32],
    w: &mut [u64],
    points: usize,
    vertices: usize,
    from: usize,
    to: usize,
    at: usize,
    shell: u64,
)
    requires { NameReady indices.now w.old points vertices from to at shell }
    ensures { w.new ≡ sets w.old (at + from)
        (map use_name (triangle_uses shell 0 (drop points w.old) (triangles_of (take (to - from) (drop from indices.now))))) }
{
    write_row(indices, w, points, vertices, from, to, at, shell, edge_name);
}

// The ways the uses of one row run.
pub fn run_row(
    indices: &[u32],
    w: &mut [u64],
    points: usize,
    vertices: usize,
    from: usize,
    to: usize,
    at: usize,
)
    requires { RowReady indices.now w.old points vertices from to at }
    ensures { w.new ≡ sets w.old (at + from)
        (map use_run (triangle_uses 0 0 (drop points w.old) (triangles_of (take (to - from) (drop from indices.now))))) }
{
    write_row(
        indices,
        w,
        points,
        vertices,
        from,
        to,
        at,
        0,
        |_, a, b| edge_run(a, b),
    );
}
