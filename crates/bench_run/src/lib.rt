// The text of an input finished in lent slices, as a program of given limits finishes it.
#![tactic(auto)]

ghost use Rattle.std.specs.Prelude.{◌≡◌, ◌≤◌, length};
ghost use Rattle.sheet_reader_state.specs.Slices.{lent};
ghost use Rattle.bench_call_texts.specs.Texts.{mesh_in, stitch_in};
ghost use Rattle.bench_agreement.specs.Smaller.{reader_in};
ghost use Rattle.bench_run.specs.Run.{InputRead, Ran};

use bench_feed::{Fed, end_text};
use bench_finish::answer_sheet;
use bench_input::read_all;
use sheet_ends::begin;
use sheet_line_order::Limits;
use sheet_reader_state::Reader;
use std::io::Read;

// How many bytes a refusal of two digits has.
pub const REFUSAL_BYTES: usize = 13;

// The reader with other limits.
pub fn with_limits(s: Reader, limits: Limits) -> Reader
    ensures { result ≡ reader_in limits s }
{
    Reader { limits, ..s }
}

// Reads the text of an input to its end.
pub fn read_input<R: Read>(
    input: &mut R,
    limits: Limits,
    line: &mut [u8],
    table: &mut [u32],
    positions: &mut [u32],
    normals: &mut [u32],
    indices: &mut [u32],
    materials: &mut [u64],
) -> Reader
    ensures { InputRead limits line.old table.old positions.old normals.old indices.old
        materials.old (lent result table.new positions.new normals.new indices.new materials.new) }
{
    let s = begin(limits, materials);
    let fed = read_all(
        input,
        Fed {
            reader: s,
            length: 0,
        },
        line,
        table,
        positions,
        normals,
        indices,
        materials,
    );
    end_text(fed, line)
}

// Reads the sheet of an input and finishes it; answers how many bytes of `out` are what the program prints of it.
pub fn finish_input<R: Read>(
    input: &mut R,
    limits: Limits,
    line: &mut [u8],
    table: &mut [u32],
    positions: &mut [u32],
    normals: &mut [u32],
    indices: &mut [u32],
    materials: &mut [u64],
    body_positions: &mut [f32],
    body_normals: &mut [f32],
    body_indices: &mut [u32],
    out_rows: &mut [u32],
    out_positions: &mut [f32],
    out_normals: &mut [f32],
    out_indices: &mut [u32],
    mesh_positions: &mut [f32],
    mesh_normals: &mut [f32],
    mesh_indices: &mut [u32],
    parts: &mut [u32],
    ranges: &mut [u32],
    failures: &mut [u64],
    work: &mut [u64],
    out: &mut [u8],
) -> usize
    ensures ran { Ran limits line.old table.old positions.old normals.old indices.old
        materials.old (length body_positions.old) (length body_normals.old) (length body_indices.old)
        (stitch_in out_rows.old out_positions.old out_normals.old out_indices.old)
        (mesh_in mesh_positions.old mesh_normals.old mesh_indices.old parts.old ranges.old
        failures.old) work.old out.old out.new result }
    ensures upper_bound { result ≤ length out.new }
{
    let s = read_input(
        input, limits, line, table, positions, normals, indices, materials,
    );
    answer_sheet(
        s,
        table,
        positions,
        normals,
        indices,
        materials,
        body_positions,
        body_normals,
        body_indices,
        out_rows,
        out_positions,
        out_normals,
        out_indices,
        mesh_positions,
        mesh_normals,
        mesh_indices,
        parts,
        ranges,
        failures,
        work,
        out,
    )
}
