// A text taken in byte by byte: a line feed has the line before it read.
#![tactic(auto)]

ghost use Rattle.std.specs.Prelude.{[], ◌∷◌};
ghost use Rattle.bench_feed.specs.Feeding.{Ended, FedOn};

use sheet_digit_writing::put_byte;
use sheet_ends::end_sheet;
use sheet_reader::read_line;
use sheet_reader_state::Reader;
use slice_front::front;

// The reader, and how many bytes of the line at hand stand in its buffer; a line that fills the buffer keeps only what has room.
#[derive(Clone, Copy)]
pub struct Fed {
    pub reader: Reader,
    pub length: usize,
}

// A byte of the text: a line feed has the line read, and any other stands behind the line's bytes so far, if there is room.
fn take_byte(
    f: Fed,
    c: u8,
    line: &mut [u8],
    table: &mut [u32],
    positions: &mut [u32],
    normals: &mut [u32],
    indices: &mut [u32],
    materials: &mut [u64],
) -> Fed
    ensures { FedOn (c ∷ []) f line.old table.old positions.old normals.old indices.old
        materials.old result line.new table.new positions.new normals.new indices.new
        materials.new }
{
    let s = f.reader;
    let kept = front(line, f.length);
    if c == 10 {
        let t = read_line(s, kept, table, positions, normals, indices, materials);
        return Fed {
            reader: t,
            length: 0,
        };
    }
    let k = kept.len();
    let n = put_byte(line, k, c);
    Fed {
        reader: s,
        length: n,
    }
}

// A stretch of the text.
pub fn feed(
    f: Fed,
    part: &[u8],
    line: &mut [u8],
    table: &mut [u32],
    positions: &mut [u32],
    normals: &mut [u32],
    indices: &mut [u32],
    materials: &mut [u64],
) -> Fed
    ensures { FedOn part.now f line.old table.old positions.old normals.old
        indices.old materials.old result line.new table.new positions.new normals.new
        indices.new materials.new }
{
    let mut g = f;
    for c in part {
        g = take_byte(g, *c, line, table, positions, normals, indices, materials);
    }
    g
}

// The end of the text.
pub fn end_text(f: Fed, line: &[u8]) -> Reader
    ensures { Ended f line.now result }
{
    end_sheet(f.reader, front(line, f.length))
}
