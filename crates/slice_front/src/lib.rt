// The front of a slice: cut off, or copied to.
#![tactic(auto)]

ghost use Rattle.std.specs.Prelude.{◌≡◌, ◌++◌, length, take, drop};

// The first n items, or all there are.
pub fn front<T>(s: &[T], n: usize) -> &[T]
    ensures { result.now ≡ take n s.now }
{
    &s[..n.min(s.len())]
}

// Items copied to the front, as many as there is room for.
pub fn copy<T: Copy>(from: &[T], to: &mut [T])
    ensures { to.new ≡ take (length to.old) from.now ++ drop (length from.now) to.old }
{
    for i in 0..from.len() {
        if to.len() <= i {
            return;
        }
        to[i] = from[i];
    }
}
