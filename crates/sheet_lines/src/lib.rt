// Lines of text by their forms: a word, then numbers, as the bench sheet and its answer have them.
//
// A form is given as a text: `#` stands for a space and a decimal number, `%` for a space and an offset, which may have a minus, `*` for a space and 8
// digits of hex, `$` for a space and 16, and any other byte for itself.
#![tactic(auto)]

mod kinds;
mod scanning;
mod writing;

pub use kinds::line_of;
pub use scanning::scan;
pub use writing::put_line;

// The kinds of lines of a sheet, in their order; a face or a fail line with a bin is a kind of its own.
#[derive(Clone, Copy)]
pub enum Kind {
    Box,
    Sag,
    NoDefault,
    Default,
    Material,
    Face,
    FaceBin,
    Vertex,
    Triangle,
    Fail,
    FailBin,
}
