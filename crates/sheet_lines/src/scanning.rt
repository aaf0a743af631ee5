// A line read by a form.

ghost use Rattle.std.specs.Prelude.{◌+◌, ◌<◌, ◌≤◌, length, drop};
ghost use Rattle.sheet_lines.specs.Counted.{count_in};
ghost use Rattle.sheet_lines.specs.Pattern.{piece, pieces, read_byte, read_number, read_piece};
ghost use Rattle.sheet_lines.specs.Scan.{Numbers, PieceTaken, Scanned};

use sheet_digit_reading::{Taken, read_decimal, read_hex, read_offset};

// How many numbers a byte of a form stands for.
pub fn numbers_of(p: u8) -> usize
    ensures { Numbers p result }
{
    match p {
        b'#' => 1,
        b'$' => 1,
        b'*' => 1,
        b'%' => 1,
        _ => 0,
    }
}

// The byte p at a place.
fn byte_at(line: &[u8], at: usize, p: u8) -> Option<Taken>
    requires { at ≤ length line.now }
    ensures { PieceTaken line.now (read_byte p (drop at line.now)) result }
{
    let c = line.get(at)?;
    if *c != p {
        return None;
    }
    Some(Taken {
        value: 0,
        next: at + 1,
    })
}

// The number that a byte of a form stands for, at a place.
fn number_at(line: &[u8], at: usize, p: u8) -> Option<Taken>
    requires { at ≤ length line.now }
    ensures { PieceTaken line.now (read_number (piece p) (drop at line.now)) result }
{
    match p {
        b'#' => read_decimal(line, at),
        b'$' => read_hex(line, at, 16),
        b'*' => read_hex(line, at, 8),
        b'%' => read_offset(line, at),
        _ => None,
    }
}

// What a byte of a form stands for, at a place: itself, or a space and a number.
fn piece_at(line: &[u8], at: usize, p: u8) -> Option<Taken>
    requires { at ≤ length line.now }
    ensures { PieceTaken line.now (read_piece (piece p) (drop at line.now)) result }
{
    if numbers_of(p) == 0 {
        return byte_at(line, at, p);
    }
    let space = byte_at(line, at, b' ')?;
    number_at(line, space.next, p)
}

// Whether a line has a form, and its numbers in front of `numbers`, which is longer than there are.
pub fn scan(line: &[u8], form: &[u8], numbers: &mut [u64]) -> bool
    requires { count_in (pieces form.now) < length numbers.old }
    ensures { Scanned (pieces form.now) line.now numbers.new result }
{
    let mut at: usize = 0;
    let mut count: usize = 0;
    for p in form {
        let Some(t) = piece_at(line, at, *p) else {
            return false;
        };
        numbers[count] = t.value;
        count += numbers_of(*p);
        at = t.next;
    }
    at == line.len()
}
