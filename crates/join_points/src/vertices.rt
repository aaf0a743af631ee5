// Joining the vertices of a slice of positions by a rule.
ghost use Rattle.std.specs.Prelude.{◌≡◌, ◌++◌, get_or, drop};
ghost use Rattle.point_rules.specs.Rule.{VertexInside};
ghost use Rattle.join_points.specs.Rules.{source_of, words_of, Fit, JoinedPoints};

use join_table::{Source, join_table};
use point_key::vertex::{digest_at, key_at};

// A rule that says which points are the same.
#[derive(Clone, Copy)]
pub enum Rule {
    // Their keys are equal.
    Key,
    // Their bits are equal.
    Bits,
    // Their bits are equal, -0.0 having those of 0.0 on each axis.
    Zeros,
}

// Where the names by a rule are once the words are written.
fn source_of(rule: Rule) -> Source
    ensures { result ≡ source_of rule }
{
    match rule {
        Rule::Key => Source::Words,
        Rule::Bits => Source::Bits,
        Rule::Zeros => Source::Zeros,
    }
}

// The word of vertex i: its name, or a digest of it.
fn word_at(rule: Rule, positions: &[f32], i: usize) -> u64
    requires { VertexInside i positions.now }
    ensures { result ≡ get_or (words_of rule positions.now) i 0 }
{
    match rule {
        Rule::Key => key_at(positions, i),
        Rule::Bits => digest_at(positions, i, false),
        Rule::Zeros => digest_at(positions, i, true),
    }
}

// The words of the n vertices become the first of w.
fn write_words(rule: Rule, positions: &[f32], w: &mut [u64], n: usize)
    requires { Fit n positions.now w.old }
    ensures { w.new ≡ words_of rule positions.now ++ drop n w.old }
{
    for i in 0..n {
        w[i] = word_at(rule, positions, i);
    }
}

// For each of the n vertices its word, in the first words of w, and the first vertex that is the same point by the rule, in the next n.
pub fn join_points(rule: Rule, positions: &[f32], w: &mut [u64], n: usize)
    requires { Fit n positions.now w.old }
    ensures { JoinedPoints rule positions.now n w.old w.new }
{
    write_words(rule, positions, w, n);
    join_table(source_of(rule), positions, w, n);
}
