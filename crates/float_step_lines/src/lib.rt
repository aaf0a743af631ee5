// One line of the program `steps`, without its line feed: the name of a float step and the bits of its operands in hex, read and answered.
#![tactic(auto)]

ghost use Rattle.std.specs.Prelude.{◌++◌, ◌∷◌, [], ◌≡◌, ◌≤◌};
ghost use Rattle.sheet_digits.specs.Digits.{hex};
ghost use Rattle.sheet_digit_writing.specs.Writing.{Wrote};
ghost use Rattle.float_step_lines.specs.Lines.{printed, reply_to};

use float_narrow::narrow;
use float_round::round;
use float_sqrt::sqrt;
use float_steps::{larger, widen};
use sheet_digit_writing::{put_byte, put_hex, put_text};
use sheet_lines::scan;

// What a step comes to: the bits of an f64 or of an f32.
#[derive(Clone, Copy)]
pub enum Reply {
    Long(u64),
    Short(u32),
}

// What a line comes to, if it is a step's.
pub fn answer(line: &[u8]) -> Option<Reply>
    ensures { result ≡ reply_to line.now }
{
    let mut bits = [0u64; 3];
    if scan(line, b"widen*", &mut bits) {
        return Some(Reply::Long(widen(bits[0] as u32)));
    }
    if scan(line, b"narrow$", &mut bits) {
        return Some(Reply::Short(narrow(bits[0])));
    }
    if scan(line, b"sqrt$", &mut bits) {
        return Some(Reply::Long(sqrt(bits[0])));
    }
    if scan(line, b"round$", &mut bits) {
        return Some(Reply::Long(round(bits[0])));
    }
    if scan(line, b"larger$$", &mut bits) {
        return Some(Reply::Long(larger(bits[0], bits[1])));
    }
    None
}

// The last k hex digits of n and a line feed, written at the start of out; answers how many bytes were written.
fn put_bits(out: &mut [u8], k: usize, n: u64) -> usize
    requires { k ≤ 20 }
    ensures { Wrote out.old 0 (hex k n ++ 10 ∷ []) out.new result }
{
    let next = put_hex(out, 0, k, n);
    put_byte(out, next, 10)
}

// The line that is printed for a reply, or for a line that is no step's, written at the start of out and cut off where it ends.
// Answers how many bytes were written.
#[tactic(auto, unfolding(crate::specs::Lines::printed))]
pub fn print(r: Option<Reply>, out: &mut [u8]) -> usize
    ensures { Wrote out.old 0 (printed r) out.new result }
{
    match r {
        Some(Reply::Long(b)) => put_bits(out, 16, b),
        Some(Reply::Short(b)) => put_bits(out, 8, u64::from(b)),
        None => put_text(out, 0, b"(refused 51)\n"),
    }
}
