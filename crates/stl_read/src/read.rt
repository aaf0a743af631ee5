// The call: the file checked, then read into the lent slices.

ghost use Rattle.std.specs.Prelude.{◌≡◌};
ghost use Rattle.refusals.specs.Numbers.{numbered};
ghost use Rattle.stl_definition.specs.Answers.{left_read, slices};
ghost use Rattle.stl_definition.specs.CallLaws.{Readable};
ghost use Rattle.stl_definition.specs.Promises.{WritesBack};
ghost use Rattle.stl_definition.specs.Read.{read_of};
ghost use Rattle.stl_read.specs.Ready.{MeshPut, MeshReady, fitted};

use crate::corners::put_corners;
use crate::failing::{file_failing, no_room};
use crate::slices::{put_numbers, put_row};
use crate::words::word_at;
use float_steps::f32_of_bits;
use refusals::Refusal;
use stl_definition::HEADER_BYTES;

// The n triangles of a file are written to the front of the slices, as one row; answers its vertices.
fn put_mesh(
    file: &[u8],
    n: usize,
    rows: &mut [u32],
    positions: &mut [f32],
    normals: &mut [f32],
    indices: &mut [u32],
) -> u32
    requires { MeshReady file.now n (slices rows.old positions.old normals.old indices.old) }
    ensures { MeshPut file.now n (slices rows.old positions.old normals.old indices.old)
        (slices rows.new positions.new normals.new indices.new) result }
{
    let vertices = 3 * n;
    put_row(rows, vertices as u32);
    put_corners(file, n, positions);
    normals[..9 * n].fill(f32_of_bits(0));
    put_numbers(indices, vertices);
    vertices as u32
}

// A file that was checked is read into slices that have room for it.
fn read_checked(
    file: &[u8],
    rows: &mut [u32],
    positions: &mut [f32],
    normals: &mut [f32],
    indices: &mut [u32],
) -> Result<u32, Refusal>
    requires { Readable file.now }
    ensures { left_read (numbered result) (slices rows.new positions.new normals.new indices.new)
        ≡ fitted file.now (slices rows.old positions.old normals.old indices.old) }
{
    let n = word_at(file, HEADER_BYTES) as usize;
    if no_room(rows.len(), positions.len(), normals.len(), indices.len(), n) {
        return Err(Refusal::ReadRoom);
    }
    Ok(put_mesh(file, n, rows, positions, normals, indices))
}

// A file is read into the front of the slices, as one row whose vertices are three to a triangle; a refusal leaves the slices as they were. What was read can
// be written again.
pub fn read_stl(
    file: &[u8],
    rows: &mut [u32],
    positions: &mut [f32],
    normals: &mut [f32],
    indices: &mut [u32],
) -> Result<u32, Refusal>
    ensures indices_after { left_read (numbered result) (slices rows.new positions.new normals.new indices.new)
        ≡ read_of file.now (slices rows.old positions.old normals.old indices.old) }
    ensures writes_back { (left_read (numbered result) (slices rows.new positions.new normals.new indices.new)).refusal ≡ 0
        → WritesBack file.now (left_read (numbered result) (slices rows.new positions.new normals.new indices.new)) }
{
    file_failing(file)?;
    read_checked(file, rows, positions, normals, indices)
}
