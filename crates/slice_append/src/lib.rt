// Numbers written to a slice behind what it holds already.
#![tactic(auto)]

ghost use Rattle.std.specs.Prelude.{◌≡◌, map, ◌+◌, ◌-◌, ◌≤◌, length, take, drop};
ghost use Rattle.std.proofs.lemmas.List.Edits.{sets};
ghost use Rattle.slice_append.specs.Appended.{Appended};
ghost use Rattle.slice_append.specs.Ready.{MovedReady};

// The items are written to `out` from place o on.
pub fn put<T: Copy>(out: &mut [T], o: usize, items: &[T])
    requires { o + length items.now ≤ length out.old }
    ensures appended { Appended o items.now out.old out.new }
    ensures stored { out.new ≡ sets out.old o items.now }
{
    for k in 0..items.len() {
        out[o + k] = items[k];
    }
}

// The indices of `from` from `start` up to `end`, each with `base` added, are written to `out` from place o on.
pub fn append_moved(from: &[u32], start: usize, end: usize, base: u32, out: &mut [u32], o: usize)
    requires { MovedReady from.now start end base out.old o }
    ensures { Appended o (map (λ i. base + i) (take (end - start) (drop start from.now))) out.old out.new }
{
    let n = end - start;
    for k in 0..n {
        out[o + k] = base + from[start + k];
    }
}
