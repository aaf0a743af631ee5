// Numbers written at a place of a slice; what passes its end is left off.
#![tactic(auto)]

ghost use Rattle.std.specs.Prelude.{◌≡◌, ◌∷◌, [], ◌+◌, ◌-◌, ◌<◌, ◌≤◌, length};
ghost use Rattle.sheet_digits.specs.Digits.{decimal, digit_byte, digits, hex};
ghost use Rattle.sheet_digits.specs.Offsets.{offset};
ghost use Rattle.sheet_digit_writing.specs.Writing.{Digits, Filling, Wrote};

// The farthest that an offset is from zero, 2^40, and the word of offset 0.
const FARTHEST: u64 = 0x100_0000_0000;

// The byte of the minus.
const MINUS: u8 = b'-';

// The byte of a digit.
#[tactic(auto, unfolding(sheet_digits::specs::Digits::digit_byte))]
fn digit_byte(d: u64) -> u8
    requires { d < 16 }
    ensures { result ≡ digit_byte d }
{
    if d < 10 {
        b'0' + d as u8
    } else {
        b'A' + (d - 10) as u8
    }
}

// One byte at a place; answers the place after it.
pub fn put_byte(out: &mut [u8], at: usize, b: u8) -> usize
    requires { at ≤ length out.old }
    ensures { Wrote out.old at (b ∷ []) out.new result }
{
    if at < out.len() {
        out[at] = b;
        return at + 1;
    }
    at
}

// A text at a place; answers the place after it.
pub fn put_text(out: &mut [u8], at: usize, text: &[u8]) -> usize
    requires { at ≤ length out.old }
    ensures { Wrote out.old at text.now out.new result }
{
    let mut next: usize = at;
    for b in text {
        next = put_byte(out, next, *b);
    }
    next
}

// The last k digits of n in base 10 or 16, written at the end of twenty bytes.
fn fill_digits(room: &mut [u8], base: u64, k: usize, n: u64)
    requires room_len { length room.old ≡ 20 }
    requires k_bound { k ≤ 20 }
    requires base_nonzero { 0 < base }
    requires base_bound { base ≤ 16 }
    ensures { Filling base k n room.new }
{
    let mut m = n;
    for i in 0..k {
        room[19 - i] = digit_byte(m % base);
        m /= base;
    }
}

// The last k digits of n in base 10 or 16 at a place; answers the place after them.
fn put_digits(out: &mut [u8], at: usize, base: u64, k: usize, n: u64) -> usize
    requires at_in_bounds { at ≤ length out.old }
    requires k_bound { k ≤ 20 }
    requires base_nonzero { 0 < base }
    requires base_bound { base ≤ 16 }
    ensures { Wrote out.old at (digits base k n) out.new result }
{
    let mut room = [0u8; 20];
    fill_digits(&mut room, base, k, n);
    put_text(out, at, &room[20 - k..])
}

// k digits of hex of n at a place; answers the place after them.
pub fn put_hex(out: &mut [u8], at: usize, k: usize, n: u64) -> usize
    requires at_in_bounds { at ≤ length out.old }
    requires k_bound { k ≤ 20 }
    ensures { Wrote out.old at (hex k n) out.new result }
{
    put_digits(out, at, 16, k, n)
}

// How many decimal digits n has, at least one.
fn count_digits(n: u64) -> usize
    ensures { Digits n result }
{
    if n == 0 { 1 } else { n.ilog10() as usize + 1 }
}

// n in decimal without leading zeros at a place; answers the place after it.
pub fn put_decimal(out: &mut [u8], at: usize, n: u64) -> usize
    requires { at ≤ length out.old }
    ensures { Wrote out.old at (decimal n) out.new result }
{
    let k = count_digits(n);
    put_digits(out, at, 10, k, n)
}

// The offset of a word n at a place, with a minus if it is below zero; answers the place after it.
pub fn put_offset(out: &mut [u8], at: usize, n: u64) -> usize
    requires { at ≤ length out.old }
    ensures { Wrote out.old at (offset n) out.new result }
{
    if n < FARTHEST {
        let next = put_byte(out, at, MINUS);
        return put_decimal(out, next, FARTHEST - n);
    }
    put_decimal(out, at, n - FARTHEST)
}
