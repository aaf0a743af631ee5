// The groups that are open around a line.

ghost use Rattle.std.specs.Prelude.{◌≤◌};
ghost use Rattle.plan_lines.specs.Sums.{Near};

use plan_lines::SumWords;

// How many groups are open, at most sixteen, and the sum of their offsets.
#[derive(Clone, Copy)]
pub struct Path {
    pub depth: usize,
    pub sum: SumWords,
    ghost deep: { depth ≤ 16 },
    ghost near: { Near depth sum },
}
