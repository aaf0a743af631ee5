// Words that become one number: a stretch filled, a front cleared.
#![tactic(auto)]

ghost use Rattle.std.specs.Prelude.{◌≡◌, ◌++◌, ◌-◌, ◌≤◌, length, drop, replicate};
ghost use Rattle.std.proofs.lemmas.List.Edits.{sets};

// The words from `from` up to `to` become x.
pub fn fill(w: &mut [u64], from: usize, to: usize, x: u64)
    requires { to ≤ length w.old }
    ensures { w.new ≡ sets w.old from (replicate (to - from) x) }
{
    w[from.min(to)..to].fill(x);
}

// The first n words of w become 0.
pub fn clear(w: &mut [u64], n: usize)
    requires { n ≤ length w.old }
    ensures { w.new ≡ replicate n 0 ++ drop n w.old }
{
    w[..n].fill(0);
}
