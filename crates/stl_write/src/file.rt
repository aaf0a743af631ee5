// The call: the mesh checked as a body of one row, then its file written.

ghost use Rattle.std.specs.Prelude.{◌≡◌, ◌++◌, ◌≤◌, length, replicate};
ghost use Rattle.lists.specs.Lists.{written};
ghost use Rattle.slice_append.specs.Appended.{Appended};
ghost use Rattle.stl_definition.specs.Answers.{left_written};
ghost use Rattle.stl_definition.specs.Bytes.{word};
ghost use Rattle.stl_definition.specs.CallLaws.{file_left};
ghost use Rattle.stl_definition.specs.File.{file_of, head_bytes, header_bytes, triangle_count};
ghost use Rattle.stl_definition.specs.Promises.{ReadsBack};
ghost use Rattle.stl_definition.specs.StepLaws.{facets_front};
ghost use Rattle.stl_definition.specs.Write.{in_two, write_of};
ghost use Rattle.refusals.specs.Numbers.{numbered};
ghost use Rattle.stl_write.specs.Ready.{Checked, Writable, fitted};

use crate::bytes::put_word;
use crate::facet::put_triangle;
use body_checks::lone_failing;
use refusals::Refusal;
use stl_definition::{FACET_BYTES, HEAD_BYTES, HEADER_BYTES};

// The header, which is zero, and the count are written to the front of `out`.
fn put_head(out: &mut [u8], count: u32)
    requires { head_bytes ≤ length out.old }
    ensures { Appended 0 (replicate header_bytes 0 ++ word count) out.old out.new }
{
    out[..HEADER_BYTES].fill(0);
    put_word(out, HEADER_BYTES, count);
}

// The triangles are written to `out` behind the head of the file, in mesh order.
fn put_facets(positions: &[f32], indices: &[u32], out: &mut [u8])
    requires { Writable positions.now indices.now out.old }
    ensures { Appended head_bytes (facets_front 3 positions.now indices.now (triangle_count indices.now))
        out.old out.new }
{
    let n = indices.len() / 3;
    for t in 0..n {
        put_triangle(positions, indices, t, out);
    }
}

// The file of a mesh is written to the front of `out`.
fn put_file(positions: &[f32], indices: &[u32], out: &mut [u8])
    requires { Writable positions.now indices.now out.old }
    ensures { out.new ≡ written (file_of 3 positions.now indices.now) out.old }
{
    put_head(out, (indices.len() / 3) as u32);
    put_facets(positions, indices, out);
}

// The file of a mesh that was checked is written to the front of a slice that has room for it.
fn write_checked(positions: &[f32], indices: &[u32], out: &mut [u8]) -> Result<u64, Refusal>
    requires { Checked positions.now indices.now }
    ensures { left_written (numbered result) out.new ≡ fitted positions.now indices.now out.old }
{
    let length = HEAD_BYTES + FACET_BYTES * (indices.len() / 3);
    if out.len() < length {
        return Err(Refusal::FileRoom);
    }
    put_file(positions, indices, out);
    Ok(length as u64)
}

// The file of a mesh is written to the front of a slice, and reads back; a refusal leaves the slice as it was.
pub fn write_stl(
    positions: &[f32],
    normals: &[f32],
    indices: &[u32],
    out: &mut [u8],
) -> Result<u64, Refusal>
    ensures out_after { left_written (numbered result) out.new
        ≡ write_of (in_two positions.now normals.now) indices.now out.old }
    ensures reads_back { (left_written (numbered result) out.new).refusal ≡ 0 → ReadsBack positions.now normals.now indices.now
        (file_left (left_written (numbered result) out.new)) }
{
    lone_failing(positions, normals, indices)?;
    write_checked(positions, indices, out)
}
