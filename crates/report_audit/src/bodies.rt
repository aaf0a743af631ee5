// The audit of a body, stage by stage.

ghost use Rattle.edge_uses.specs.Area.{AreaReady};
ghost use Rattle.report_audit.specs.Audited.{UsesLaid, BodyAudited, Auditable, Audited};

use edge_first_users::list_uses;
use join_definition::JOIN_WORDS;
use join_points::vertices::Rule;

// The uses of a body stand behind 4 words of each vertex and each row, in so many words each.
pub const USE_WORDS: usize = 4;

// The entries stand behind 4 words of each vertex, those of each use, and so many of each row.
pub const ROW_WORDS: usize = 13;

// The uses of a body of v vertices and m rows are laid out: points joined by key, every row of shell 0.
fn lay_uses(rows: &[u32], positions: &[f32], indices: &[u32], w: &mut [u64], v: usize, m: usize)
    requires { AreaReady rows.now positions.now indices.now w.old v m }
    ensures { UsesLaid rows.now positions.now indices.now v m w.old w.new }
{
    let shells = JOIN_WORDS * v;
    join_points::vertices::join_points(Rule::Key, positions, w, v);
    slice_fill::fill(w, shells, shells + m, 0);
    list_uses(rows, indices, w, v, shells, shells + JOIN_WORDS * m);
}

// The audit of a body of v vertices and m rows.
fn audit_body(
    rows: &[u32],
    positions: &[f32],
    indices: &[u32],
    w: &mut [u64],
    v: usize,
    m: usize,
) -> usize
    requires { AreaReady rows.now positions.now indices.now w.old v m }
    ensures { BodyAudited rows.now positions.now indices.now v m result w.old w.new }
{
    let n = indices.len();
    let uses = JOIN_WORDS * v + JOIN_WORDS * m;
    let at = uses + USE_WORDS * n;
    lay_uses(rows, positions, indices, w, v, m);
    crate::faces::join_faces(rows, w, at);
    crate::counts::count_marks(w, uses + n, n, at + m, at + JOIN_WORDS * m, m);
    crate::ranks::rank_counts(w, at, m)
}

// The faces wound against their neighbours, ranked, in the work area: answers how many.
pub fn audit(rows: &[u32], positions: &[f32], indices: &[u32], w: &mut [u64]) -> usize
    requires { Auditable rows.now positions.now indices.now w.old }
    ensures { Audited rows.now positions.now indices.now result w.old w.new }
{
    let v = body_rows::total_vertices(rows);
    let m = body_rows::row_count(rows);
    audit_body(rows, positions, indices, w, v, m)
}
