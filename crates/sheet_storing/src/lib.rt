// Numbers of 32 bits stored side by side.
#![tactic(auto)]

ghost use Rattle.std.specs.Prelude.{◌≡◌, ◌∷◌, [], ◌+◌, ◌%◌, ◌^◌, ◌<◌, ◌≤◌, length, get_or, set};
ghost use Rattle.body_rows.specs.Body.{row_width};
ghost use Rattle.sheet_storing.specs.Placed.{low_three, placed};

use slice_append::put;

// The low 32 bits.
pub fn low(n: u64) -> u32
    ensures { result ≡ n % 2 ^ 32 }
{
    (n % 4294967296) as u32
}

// Three of some numbers, their low 32 bits, from a place on.
pub fn store_low(s: &mut [u32], at: usize, numbers: &[u64], i: usize)
    requires at_in_bounds { at + 3 ≤ length s.old }
    requires i_in_bounds { i + 3 ≤ length numbers.now }
    ensures { s.new ≡ placed s.old at (low_three numbers.now i) }
{
    let a = low(numbers[i]);
    let b = low(numbers[i + 1]);
    let c = low(numbers[i + 2]);
    put(s, at, &[a, b, c]);
}

// A row from a place on, its counts 0.
pub fn store_row(s: &mut [u32], at: usize, shell: u32, face: u32, outcome: u32, bin: u32)
    requires { at + row_width ≤ length s.old }
    ensures { s.new ≡ placed s.old at (shell ∷ face ∷ outcome ∷ 0 ∷ 0 ∷ bin ∷ []) }
{
    put(s, at, &[shell, face, outcome, 0, 0, bin]);
}

// n more at a place.
pub fn raise(s: &mut [u32], at: usize, n: u32)
    requires at_in_bounds { at < length s.old }
    requires n_bound { get_or s.old at 0 + n < 2 ^ 32 }
    ensures { s.new ≡ set s.old at (get_or s.old at 0 + n) }
{
    s[at] = s[at] + n;
}
