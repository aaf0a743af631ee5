// The reader before the first line of a sheet, with a refusal, and at the end.
#![tactic(auto)]

ghost use Rattle.std.specs.Prelude.{◌≡◌};
ghost use Rattle.refusals.specs.Numbers.{number};
ghost use Rattle.sheet_line_order.specs.Reading.{start};
ghost use Rattle.sheet_reader_state.specs.Slices.{Begun, ended, reader_of, refused};

use refusals::Refusal;
use sheet_line_order::Limits;
use sheet_reader_state::Reader;
use slice_fill::clear;

// The reader before the first line.
#[tactic(auto, unfolding(sheet_line_order::specs::Reading::start))]
fn fresh(limits: Limits) -> Reader
    ensures { result ≡ reader_of (start limits) }
{
    Reader {
        limits,
        refusal: 0,
        place: 0,
        rows: 0,
        vertices: 0,
        indices: 0,
        default: 0,
        sag: 0,
        minx: 0,
        miny: 0,
        minz: 0,
        maxx: 0,
        maxy: 0,
        maxz: 0,
    }
}

// The reader before the first line; no face has a material yet.
pub fn begin(limits: Limits, materials: &mut [u64]) -> Reader
    ensures { Begun limits materials.old result materials.new }
{
    let face = limits.face as usize;
    if materials.len() <= face {
        clear(materials, materials.len());
        return fresh(limits);
    }
    clear(materials, face + 1);
    fresh(limits)
}

// The reader with a refusal.
pub fn refuse(s: Reader, r: Refusal) -> Reader
    ensures { result ≡ refused (number r) s }
{
    Reader {
        refusal: r.number(),
        ..s
    }
}

// The end of the sheet, `rest` being what stands after the last LF: refused for a line without its LF, and for a missing line.
#[tactic(auto, unfolding(sheet_reader_state::specs::Slices::ended))]
pub fn end_sheet(s: Reader, rest: &[u8]) -> Reader
    ensures { result ≡ ended s rest.now }
{
    if s.refusal != 0 {
        return s;
    }
    if !rest.is_empty() {
        return refuse(s, Refusal::Sheet);
    }
    if s.place < 3 {
        return refuse(s, Refusal::Sheet);
    }
    s
}
