// What the program prints as text, and its counts, written at a place of a slice.
#![tactic(auto)]

ghost use Rattle.std.specs.Prelude.{◌∷◌, [], ◌≤◌, length};
ghost use Rattle.sheet_digit_writing.specs.Writing.{Wrote};
ghost use Rattle.sheet_lines.specs.Forms.{line};
ghost use Rattle.sheet_lines.specs.Pattern.{pieces};
ghost use Rattle.sheet_answer_text.specs.Answer.{count_text};

use sheet_lines::put_line;

// How much of the mesh's slices is written.
#[derive(Clone, Copy)]
pub struct Sizes {
    pub vertices: u32,
    pub indices: u32,
    pub parts: u32,
    pub ranges: u32,
    pub failures: u32,
}

// What was counted: rows turned, pairs against, splits, accepted rows; edges of the mesh, those used once, those used more than twice; and closed.
#[derive(Clone, Copy)]
pub struct Tallies {
    pub turned: u64,
    pub against: u64,
    pub split: u64,
    pub ok: u64,
    pub edges: u64,
    pub opens: u64,
    pub overs: u64,
    pub closed: bool,
}

// A line with one number; answers the place after it.
pub fn put_count(out: &mut [u8], at: usize, form: &[u8], n: u64) -> usize
    requires { at ≤ length out.old }
    ensures { Wrote out.old at (line (pieces form.now) (n ∷ [])) out.new result }
{
    put_line(out, at, form, &[n])
}

// The counts; answers the place after them.
pub fn put_counts(out: &mut [u8], at: usize, t: Tallies) -> usize
    requires { at ≤ length out.old }
    ensures { Wrote out.old at (count_text t) out.new result }
{
    let a = put_count(out, at, b"(turned#)", t.turned);
    let b = put_count(out, a, b"(against#)", t.against);
    let c = put_count(out, b, b"(split#)", t.split);
    let d = put_count(out, c, b"(ok#)", t.ok);
    let e = put_count(out, d, b"(edges#)", t.edges);
    let f = put_count(out, e, b"(open#)", t.opens);
    let g = put_count(out, f, b"(over#)", t.overs);
    put_count(out, g, b"(closed#)", u64::from(t.closed))
}
