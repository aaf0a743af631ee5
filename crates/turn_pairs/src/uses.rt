// The uses of a body in the work area, stage by stage (specs/Laid.antt names where each stands).

ghost use Rattle.edge_uses.specs.Area.{Layable};
ghost use Rattle.turn_pairs.specs.Laid.{Joinable, BodyJoined, Laid};

use crate::shells::join_shells;
use join_definition::JOIN_WORDS;
use join_points::vertices::Rule;

// The v vertices are joined by key, and the m rows behind them by shell.
fn join_body(rows: &[u32], positions: &[f32], w: &mut [u64], v: usize, m: usize)
    requires { Joinable rows.now positions.now v m w.old }
    ensures { BodyJoined rows.now positions.now v m w.old w.new }
{
    join_points::vertices::join_points(Rule::Key, positions, w, v);
    join_shells(rows, w, JOIN_WORDS * v);
}

// The uses of a body of v vertices and m rows are laid out for the walk.
pub fn lay_uses(rows: &[u32], positions: &[f32], indices: &[u32], w: &mut [u64], v: usize, m: usize)
    requires { Layable rows.now positions.now indices.now w.old v m }
    ensures { Laid rows.now positions.now indices.now v m w.old w.new }
{
    join_body(rows, positions, w, v, m);
    edge_first_users::list_uses(
        rows,
        indices,
        w,
        v,
        JOIN_WORDS * v + m,
        JOIN_WORDS * v + JOIN_WORDS * m,
    );
}
