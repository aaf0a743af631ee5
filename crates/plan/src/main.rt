// Reads a yard plan from standard input and prints its bins, a line each in the order read, or only the refusal.
#![tactic(auto)]

ghost use Rattle.plan_print.specs.Printing.{Answered};

use plan_print::print_plan;
use refusals::Refusal;
use sheet_answer::write_refusal;
use sheet_digit_writing::put_text;
use slice_front::front;
use std::io;
use std::io::{ErrorKind, Read, Write};

// A text is longer than the program takes.
#[derive(Clone, Copy, Debug, PartialEq, Eq)]
struct TooLong;

// What one read came to, with how many bytes of the text there are now: the input goes on, or it has ended, or the read failed.
#[derive(Clone, Copy)]
enum Got {
    More(usize),
    End(usize),
    Failed(usize),
}

// Bytes put behind the first n of a text, as far as it has room; answers how many there are now.
fn put_part(text: &mut [u8], n: usize, part: &[u8]) -> usize {
    if text.len() < n {
        return n;
    }
    put_text(text, n, part)
}

// The read behind n bytes failed: an empty line, which is no line of a plan, stands for the rest of the input; answers how long the text is then.
fn fail_read(text: &mut [u8], n: usize) -> usize {
    put_part(text, n, b"\n\n")
}

// Reads a stretch of the input behind the first n bytes of a text. A read that a signal interrupted adds nothing, and the input goes on.
fn read_some<R: Read>(input: &mut R, text: &mut [u8], n: usize) -> Got {
    let mut buf = [0u8; 4096];
    match input.read(&mut buf) {
        Ok(0) => Got::End(n),
        Ok(count) => Got::More(put_part(text, n, &buf[..count])),
        Err(e) => {
            if e.kind() == ErrorKind::Interrupted {
                return Got::More(n);
            }
            Got::Failed(fail_read(text, n))
        }
    }
}

// The length of a text of n bytes, if it leaves room for the two that a failed read adds; else the text is longer than the program takes.
fn in_room(room: usize, n: usize) -> Result<usize, TooLong> {
    if room < 2 || room - 2 < n {
        return Err(TooLong);
    }
    Ok(n)
}

// Reads the input to its end; answers how long the text is. The loop has a number of turns that no run
// uses up, since nothing says that the input ends.
fn read_input<R: Read>(input: &mut R, text: &mut [u8]) -> Result<usize, TooLong> {
    let mut n: usize = 0;
    for _ in 0..u64::MAX {
        match read_some(input, text, n) {
            Got::More(length) => n = in_room(text.len(), length)?,
            Got::End(length) => return in_room(text.len(), length),
            Got::Failed(length) => return Ok(length),
        }
    }
    Err(TooLong)
}

// Reads a plan from the input and writes what is printed of it to the front of `out`; answers how many bytes.
fn print_input<R: Read>(input: &mut R, text: &mut [u8], list: &mut [i64], out: &mut [u8]) -> usize
    ensures { Answered list.old out.old out.new result }
{
    match read_input(input, text) {
        Ok(n) => print_plan(front(text, n), list, out),
        Err(TooLong) => write_refusal(out, Refusal::SheetLimit.number()),
    }
}

// Room for the longest plan, 1,048,576 bytes, and for the two that a failed read adds.
fn longest() -> [u8; 1048578] {
    [0u8; 1048578]
}

// Room for every answer: 96 bytes for each of 4,096 bins.
fn room() -> [u8; 393216] {
    [0u8; 393216]
}

fn main(rt: HostRuntime) -> io::Result<()> {
    let mut text = longest();
    let mut out = room();
    let k = print_input(&mut rt.reader(), &mut text, &mut [0i64; 16384], &mut out);
    io::writer(&rt).write_all(front(&out, k))
}
