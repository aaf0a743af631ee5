// A text fed to the reader, from an input to its end.
#![tactic(auto)]

ghost use Rattle.bench_feed.specs.Feeding.{FedOn, FedSome, failed_read};
ghost use Rattle.bench_input.specs.Turn.{fed_by};

use bench_feed::{Fed, feed};
use std::io::{ErrorKind, Read};
use std::ops::ControlFlow;

// The read that follows what was fed failed: an empty line, which is no form, stands for the rest of the input, so that the sheet is refused.
fn fail_read(
    f: Fed,
    line: &mut [u8],
    table: &mut [u32],
    positions: &mut [u32],
    normals: &mut [u32],
    indices: &mut [u32],
    materials: &mut [u64],
) -> Fed
    ensures { FedOn failed_read f line.old table.old positions.old normals.old indices.old
        materials.old result line.new table.new positions.new normals.new indices.new
        materials.new }
{
    feed(
        f, b"\n\n", line, table, positions, normals, indices, materials,
    )
}

// Reads a stretch of the input; breaks off at its end and at a read that fails. A read that a signal interrupted feeds nothing, and the input goes on.
fn read_some<R: Read>(
    input: &mut R,
    f: Fed,
    line: &mut [u8],
    table: &mut [u32],
    positions: &mut [u32],
    normals: &mut [u32],
    indices: &mut [u32],
    materials: &mut [u64],
) -> ControlFlow<Fed, Fed>
    ensures { FedSome f line.old table.old positions.old normals.old indices.old
        materials.old (fed_by result) line.new table.new positions.new normals.new indices.new
        materials.new }
{
    let mut buf = [0u8; 4096];
    match input.read(&mut buf) {
        Ok(0) => ControlFlow::Break(f),
        Ok(count) => {
            let g = feed(
                f,
                &buf[..count],
                line,
                table,
                positions,
                normals,
                indices,
                materials,
            );
            ControlFlow::Continue(g)
        }
        Err(e) if e.kind() == ErrorKind::Interrupted => ControlFlow::Continue(f),
        Err(_) => {
            let g = fail_read(f, line, table, positions, normals, indices, materials);
            ControlFlow::Break(g)
        }
    }
}

// Reads to the end of the input. The loop has a number of turns that no run uses up, since nothing says that the input ends.
pub fn read_all<R: Read>(
    input: &mut R,
    f: Fed,
    line: &mut [u8],
    table: &mut [u32],
    positions: &mut [u32],
    normals: &mut [u32],
    indices: &mut [u32],
    materials: &mut [u64],
) -> Fed
    ensures { FedSome f line.old table.old positions.old normals.old indices.old
        materials.old result line.new table.new positions.new normals.new indices.new
        materials.new }
{
    let mut g = f;
    for _turn in 0..u64::MAX {
        let turn = read_some(
            input, g, line, table, positions, normals, indices, materials,
        );
        match turn {
            ControlFlow::Continue(h) => g = h,
            ControlFlow::Break(h) => return h,
        }
    }
    g
}
