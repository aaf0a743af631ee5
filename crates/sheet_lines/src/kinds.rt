// The kind of a line of the sheet.

ghost use Rattle.std.specs.Prelude.{◌≡◌, ◌<◌, length};
ghost use Rattle.sheet_lines.specs.Forms.{line_among, line_of};
ghost use Rattle.sheet_lines.specs.Pattern.{later, opening};
ghost use Rattle.sheet_lines.specs.Scan.{given};

use crate::Kind;
use crate::scanning::scan;

// The kind of a line that opens a row, if it has a form of the sheet.
fn opening_line_of(line: &[u8], numbers: &mut [u64]) -> Option<Kind>
    requires { 6 < length numbers.old }
    ensures { given result numbers.new ≡ line_among opening line.now }
{
    if scan(line, b"(face##)", numbers) {
        return Some(Kind::Face);
    }
    if scan(line, b"(face###)", numbers) {
        return Some(Kind::FaceBin);
    }
    if scan(line, b"(fail###)", numbers) {
        return Some(Kind::Fail);
    }
    if scan(line, b"(fail####)", numbers) {
        return Some(Kind::FailBin);
    }
    None
}

// The same for a line after the default.
fn later_line_of(line: &[u8], numbers: &mut [u64]) -> Option<Kind>
    requires { 6 < length numbers.old }
    ensures { given result numbers.new ≡ line_among later line.now }
{
    if scan(line, b"(material##)", numbers) {
        return Some(Kind::Material);
    }
    if scan(line, b"(v (p***) (n***))", numbers) {
        return Some(Kind::Vertex);
    }
    if scan(line, b"(t###)", numbers) {
        return Some(Kind::Triangle);
    }
    opening_line_of(line, numbers)
}

// The kind of a line, if it has a form of the sheet, and, in front of `numbers`, its numbers.
pub fn line_of(line: &[u8], numbers: &mut [u64]) -> Option<Kind>
    requires { 6 < length numbers.old }
    ensures { given result numbers.new ≡ line_of line.now }
{
    if scan(line, b"(box$$$$$$)", numbers) {
        return Some(Kind::Box);
    }
    if scan(line, b"(sag$)", numbers) {
        return Some(Kind::Sag);
    }
    if scan(line, b"(default -)", numbers) {
        return Some(Kind::NoDefault);
    }
    if scan(line, b"(default#)", numbers) {
        return Some(Kind::Default);
    }
    later_line_of(line, numbers)
}
