// A line written by a form; what passes the end of the slice is left off.

ghost use Rattle.std.specs.Prelude.{◌≤◌, length};
ghost use Rattle.sheet_digit_writing.specs.Writing.{Wrote};
ghost use Rattle.sheet_lines.specs.Forms.{line, print};
ghost use Rattle.sheet_lines.specs.Pattern.{piece, pieces, print_number, print_piece};

use crate::scanning::numbers_of;
use sheet_digit_writing::{put_byte, put_decimal, put_hex, put_offset};

// The number that a byte of a form stands for, n, at a place; answers the place after it.
fn put_number(out: &mut [u8], at: usize, p: u8, n: u64) -> usize
    requires { at ≤ length out.old }
    ensures { Wrote out.old at (print_number (piece p) n) out.new result }
{
    match p {
        b'#' => put_decimal(out, at, n),
        b'$' => put_hex(out, at, 16, n),
        b'*' => put_hex(out, at, 8, n),
        b'%' => put_offset(out, at, n),
        _ => at,
    }
}

// What a byte of a form stands for, at a place: itself, or a space and the number n; answers the place after it.
fn put_piece(out: &mut [u8], at: usize, p: u8, n: u64) -> usize
    requires { at ≤ length out.old }
    ensures { Wrote out.old at (print_piece (piece p) n) out.new result }
{
    if numbers_of(p) == 0 {
        return put_byte(out, at, p);
    }
    let next = put_byte(out, at, b' ');
    put_number(out, next, p, n)
}

// The form's text for some numbers at a place, up to where there are too few; answers the place after it.
fn put_form(out: &mut [u8], at: usize, form: &[u8], numbers: &[u64]) -> usize
    requires { at ≤ length out.old }
    ensures { Wrote out.old at (print (pieces form.now) numbers.now) out.new result }
{
    let mut next: usize = at;
    let mut count: usize = 0;
    for p in form {
        let n = numbers_of(*p);
        if numbers.len() - count < n {
            return next;
        }
        let v = numbers.get(count).copied().unwrap_or(0);
        next = put_piece(out, next, *p, v);
        count += n;
    }
    next
}

// A line with its LF at a place; answers the place after it.
pub fn put_line(out: &mut [u8], at: usize, form: &[u8], numbers: &[u64]) -> usize
    requires { at ≤ length out.old }
    ensures { Wrote out.old at (line (pieces form.now) numbers.now) out.new result }
{
    let next = put_form(out, at, form, numbers);
    put_byte(out, next, b'\n')
}
