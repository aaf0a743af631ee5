// How many uses each edge has.

ghost use Rattle.std.specs.Prelude.{◌≡◌, ◌+◌, get_or, set};
ghost use Rattle.edge_uses.specs.Counted.{StepReady, CountReady, Counted};

use slice_fill::fill;

// Use i adds 1 to the count at its first use.
pub fn count_one(w: &mut [u64], firsts: usize, counts: usize, i: usize)
    requires { StepReady w.old firsts counts i }
    ensures { w.new ≡ set w.old (counts + get_or w.old (firsts + i) 0)
        (get_or w.old (counts + get_or w.old (firsts + i) 0) 0 + 1) }
{
    let at = counts + w[firsts + i] as usize;
    w[at] = w[at] + 1;
}

// The uses of each edge are counted at its first use: the first uses of n uses stand from `firsts` on, the counts go to `counts` on.
pub fn count_uses(w: &mut [u64], firsts: usize, counts: usize, n: usize)
    requires { CountReady w.old firsts counts n }
    ensures { Counted w.old firsts counts n w.new }
{
    let end = counts + n;
    fill(w, counts, end, 0);
    for i in 0..n {
        count_one(w, firsts, counts, i);
    }
}
