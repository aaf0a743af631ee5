// Reads float steps from standard input, one a line, and prints the bits of each result; `(refused 51)` for a line that is none. A line feed ends a line.
#![tactic(auto)]

ghost use Rattle.std.specs.Prelude.{◌≤◌, length, IfOk};

use sheet_digit_writing::put_byte;
use std::io;
use std::io::{ErrorKind, Read, Write};

// Prints the answer to a line.
fn show<W: Write>(output: &mut W, line: &[u8]) -> io::Result<()> {
    let reply = float_step_lines::answer(line);
    let mut out = [0u8; 17];
    let n = float_step_lines::print(reply, &mut out);
    output.write_all(&out[..n])
}

// Takes in a byte of the input, behind the k bytes of its line so far: a line feed has the line answered, and a byte that has no room is dropped, since no form
// fills a line of 41 bytes.
fn take<W: Write>(output: &mut W, line: &mut [u8], k: usize, c: u8) -> io::Result<usize>
    requires { k ≤ length line.old }
    ensures { IfOk result (λ n. n ≤ length line.old) }
{
    if c == b'\n' {
        show(output, &line[..k])?;
        return Ok(0);
    }
    Ok(put_byte(line, k, c))
}

// Takes in a stretch of the input, behind n bytes of its first line; answers how many bytes of its last line there are.
fn feed<W: Write>(output: &mut W, line: &mut [u8], n: usize, part: &[u8]) -> io::Result<usize>
    requires { n ≤ length line.old }
    ensures { IfOk result (λ n. n ≤ length line.old) }
{
    let mut k = n;
    for c in part {
        k = take(output, line, k, *c)?;
    }
    Ok(k)
}

// Reads to the end of the input, or up to a read that fails; answers how many bytes it has after the last line feed, or 41 where these are more. A read that a
// signal interrupted is made again. The loop has a number of turns that no run uses up, since nothing says that the input ends.
fn read_all<R: Read, W: Write>(input: &mut R, output: &mut W) -> io::Result<usize> {
    let mut line = [0u8; 41];
    let mut n: usize = 0;
    for _turn in 0..u64::MAX {
        let mut buf = [0u8; 4096];
        match input.read(&mut buf) {
            Ok(0) => return Ok(n),
            Ok(count) => n = feed(output, &mut line, n, &buf[..count])?,
            Err(e) if e.kind() == ErrorKind::Interrupted => {}
            Err(_) => return Ok(n),
        }
    }
    Ok(n)
}

fn main(rt: HostRuntime) -> io::Result<()> {
    let mut output = io::writer(&rt);
    let rest = read_all(&mut rt.reader(), &mut output)?;
    if rest > 0 {
        show(&mut output, b"")?;
    }
    Ok(())
}
