// The lines of a text, and what each is.

ghost use Rattle.std.specs.Prelude.{◌≡◌, ◌==◌, ◌<◌, ◌≤◌, length, position};
ghost use Rattle.plan_definition.specs.Lines.{line_of};
ghost use Rattle.plan_lines.specs.Given.{Found, Line, LineEnd};

use plan_definition::{MOST_BIN, PlaceWords};
use sheet_lines::scan;

// A line of a plan, or none, or the end of the text.
#[derive(Clone, Copy)]
pub enum PlanLine {
    Open(PlaceWords),
    Bin(u64, PlaceWords),
    Close,
    Malformed,
    End,
}

// A line, and where the next one begins.
#[derive(Clone, Copy)]
pub struct LineAt {
    pub line: PlanLine,
    pub end: usize,
}

// Where the first LF of a text is, if it has one.
fn line_feed(text: &[u8]) -> Option<usize>
    ensures { result ≡ position (λ c. c == 10) text.now }
{
    text.iter().position(|c| *c == b'\n')
}

// Where the line at a place ends: behind its LF, or where the text does.
fn line_end(text: &[u8], at: usize) -> usize
    requires { at < length text.now }
    ensures { LineEnd text.now at result }
{
    match line_feed(&text[at..]) {
        Some(n) => at + n + 1,
        None => text.len(),
    }
}

// What a line with its LF is.
fn plan_line(line: &[u8]) -> PlanLine
    ensures { Line (line_of line.now) result }
{
    let mut numbers = [0u64; 5];
    if scan(line, b"(group%%%\n", &mut numbers) {
        return PlanLine::Open(PlaceWords {
            x: numbers[0],
            y: numbers[1],
            z: numbers[2],
        });
    }
    if scan(line, b"(bin#%%%)\n", &mut numbers) {
        if MOST_BIN < numbers[0] {
            return PlanLine::Malformed;
        }
        return PlanLine::Bin(
            numbers[0],
            PlaceWords {
                x: numbers[1],
                y: numbers[2],
                z: numbers[3],
            },
        );
    }
    if scan(line, b")\n", &mut numbers) {
        return PlanLine::Close;
    }
    PlanLine::Malformed
}

// The line at a place.
pub fn line_at(text: &[u8], at: usize) -> LineAt
    requires { at ≤ length text.now }
    ensures { Found text.now at result }
{
    if text.len() <= at {
        return LineAt {
            line: PlanLine::End,
            end: at,
        };
    }
    let end = line_end(text, at);
    let line = plan_line(&text[at..end]);
    LineAt { line, end }
}
