// Numbers that stand at a place of a text.
#![tactic(auto)]

ghost use Rattle.std.specs.Prelude.{◌+◌, ◌^◌, ◌<◌, ◌≤◌, length, drop};
ghost use Rattle.sheet_digits.specs.Digits.{below, decimal_below, decimal_from, read_decimal, read_hex};
ghost use Rattle.sheet_digits.specs.Offsets.{read_offset};
ghost use Rattle.sheet_digit_reading.specs.Given.{Bound, Digit, Number};

// The largest number that is read, 2^32 − 1.
const LARGEST: u64 = 0xffff_ffff;

// The farthest that an offset is from zero, 2^40, and the word of offset 0.
const FARTHEST: u64 = 0x100_0000_0000;

// The byte of the minus.
const MINUS: u8 = b'-';

// A number that was read, and the place after it.
#[derive(Clone, Copy)]
pub struct Taken {
    pub value: u64,
    pub next: usize,
}

// The decimal digit that a byte stands for.
fn decimal_digit(c: u8) -> Option<u64>
    ensures { Digit c 10 result }
{
    match c {
        b'0'..=b'9' => Some(u64::from(c - b'0')),
        _ => None,
    }
}

// The digit of hex that a byte stands for.
fn hex_digit(c: u8) -> Option<u64>
    ensures { Digit c 16 result }
{
    match c {
        b'A'..=b'F' => Some(u64::from(c - b'A') + 10),
        _ => decimal_digit(c),
    }
}

// The bits that k digits of hex at a place stand for.
pub fn read_hex(text: &[u8], at: usize, k: usize) -> Option<Taken>
    requires at_in_bounds { at ≤ length text.now }
    requires k_bound { k ≤ 16 }
    ensures { Number text.now (16 ^ k) (read_hex k (drop at text.now)) result }
{
    let mut value: u64 = 0;
    for c in text[at..].get(..k)? {
        let d = hex_digit(*c)?;
        value = value * 16 + d;
    }
    Some(Taken {
        value,
        next: at + k,
    })
}

// All decimal digits from a place on, after a digit that was read and isn't 0; no number if it is above `most`.
fn more_digits(text: &[u8], at: usize, before: u64, most: u64) -> Option<Taken>
    requires at_in_bounds { at ≤ length text.now }
    requires before_bound { before < 10 }
    requires bound { Bound most }
    ensures { Number text.now (most + 1) (below (most + 1) (decimal_from before (drop at text.now))) result }
{
    let mut value: u64 = before;
    for i in at..text.len() {
        let Some(d) = decimal_digit(text[i]) else {
            return Some(Taken { value, next: i });
        };
        value = value * 10 + d;
        if most < value {
            return None;
        }
    }
    Some(Taken {
        value,
        next: text.len(),
    })
}

// The decimal number at a place: 0 alone, or all digits from one that isn't 0, and at most `most`.
fn read_below(text: &[u8], at: usize, most: u64) -> Option<Taken>
    requires at_in_bounds { at ≤ length text.now }
    requires bound { Bound most }
    ensures { Number text.now (most + 1) (decimal_below (most + 1) (drop at text.now)) result }
{
    let c = text.get(at)?;
    let first = decimal_digit(*c)?;
    if first == 0 {
        return Some(Taken {
            value: 0,
            next: at + 1,
        });
    }
    more_digits(text, at + 1, first, most)
}

// The decimal number at a place, below 2^32.
pub fn read_decimal(text: &[u8], at: usize) -> Option<Taken>
    requires { at ≤ length text.now }
    ensures { Number text.now (2 ^ 32) (read_decimal (drop at text.now)) result }
{
    read_below(text, at, LARGEST)
}

// The word of the offset at a place: a decimal number of at most 2^40, with a minus before it if it is below zero.
pub fn read_offset(text: &[u8], at: usize) -> Option<Taken>
    requires { at ≤ length text.now }
    ensures { Number text.now (2 ^ 41 + 1) (read_offset (drop at text.now)) result }
{
    let c = text.get(at)?;
    if *c == MINUS {
        let size = read_below(text, at + 1, FARTHEST)?;
        if size.value == 0 {
            return None;
        }
        return Some(Taken {
            value: FARTHEST - size.value,
            next: size.next,
        });
    }
    let size = read_below(text, at, FARTHEST)?;
    Some(Taken {
        value: FARTHEST + size.value,
        next: size.next,
    })
}
