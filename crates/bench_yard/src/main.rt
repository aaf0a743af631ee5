// Reads a bench sheet from standard input and prints the finished mesh and its counts, or only the refusal, as the bench program does, of bodies of real size.
// Most bodies are finished in small arrays, since an array is cleared before it is used; those that need more are finished once more in large ones.
#![tactic(auto)]

ghost use Rattle.std.specs.Prelude.{◌≡◌, ◌≤◌, length};
ghost use Rattle.sheet_line_order.specs.Limits.{yard_limits};
ghost use Rattle.sheet_reader_state.specs.Slices.{lent};
ghost use Rattle.bench_run.specs.Run.{FinishedIn, FinishedShort};
ghost use Rattle.bench_run.specs.Smaller.{bin_limits};

use bench_finish::answer_sheet;
use bench_run::{REFUSAL_BYTES, read_input, with_limits};
use sheet_line_order::Limits;
use sheet_reader_state::Reader;
use std::io;
use std::io::Write;

// What the program takes.
fn limits() -> Limits
    ensures { result ≡ yard_limits }
{
    Limits {
        rows: 256,
        vertices: 4096,
        indices: 12288,
        face: 4095,
        result_vertices: 8192,
        result_indices: 24576,
    }
}

// How many indices most bodies of a yard have at the most.
const BIN_INDICES: usize = 2304;

// What most bodies of a yard are within.
fn bin_limits() -> Limits
    ensures { result ≡ bin_limits }
{
    Limits {
        rows: 64,
        vertices: 768,
        indices: BIN_INDICES,
        face: 4095,
        result_vertices: 1024,
        result_indices: 3072,
    }
}

// Finishes a sheet that was read in small arrays; more bytes than a refusal's are what the program prints of it.
fn finish_bin(
    s: Reader,
    table: &[u32],
    positions: &[u32],
    normals: &[u32],
    indices: &[u32],
    materials: &[u64],
    out: &mut [u8],
) -> usize
    ensures finished_short { FinishedShort yard_limits (lent s table.now positions.now normals.now indices.now
        materials.now) out.old out.new result }
    ensures upper_bound { result ≤ length out.new }
{
    answer_sheet(
        with_limits(s, bin_limits()),
        table,
        positions,
        normals,
        indices,
        materials,
        &mut [0.0f32; 2304],
        &mut [0.0f32; 2304],
        &mut [0u32; 2304],
        &mut [0u32; 384],
        &mut [0.0f32; 3072],
        &mut [0.0f32; 3072],
        &mut [0u32; 3072],
        &mut [0.0f32; 3072],
        &mut [0.0f32; 3072],
        &mut [0u32; 3072],
        &mut [0u32; 192],
        &mut [0u32; 256],
        &mut [0u64; 320],
        &mut [0u64; 54272],
        out,
    )
}

// Finishes a sheet that was read in arrays for every sheet within the limits; the bytes written are what the program prints of it.
fn finish_large(
    s: Reader,
    table: &[u32],
    positions: &[u32],
    normals: &[u32],
    indices: &[u32],
    materials: &[u64],
    out: &mut [u8],
) -> usize
    ensures finished_in { FinishedIn yard_limits (lent s table.now positions.now normals.now indices.now
        materials.now) out.old out.new result }
    ensures upper_bound { result ≤ length out.new }
{
    answer_sheet(
        s,
        table,
        positions,
        normals,
        indices,
        materials,
        &mut [0.0f32; 12288],
        &mut [0.0f32; 12288],
        &mut [0u32; 12288],
        &mut [0u32; 1536],
        &mut [0.0f32; 24576],
        &mut [0.0f32; 24576],
        &mut [0u32; 24576],
        &mut [0.0f32; 24576],
        &mut [0.0f32; 24576],
        &mut [0u32; 24576],
        &mut [0u32; 768],
        &mut [0u32; 1024],
        &mut [0u64; 1280],
        &mut [0u64; 430080],
        out,
    )
}

// Prints a sheet that was read, if small arrays are enough for it.
fn print_bin<W: Write>(
    output: &mut W,
    s: Reader,
    table: &[u32],
    positions: &[u32],
    normals: &[u32],
    indices: &[u32],
    materials: &[u64],
) -> io::Result<bool> {
    // an answer in the small arrays has at most 158,392 bytes
    let mut out = [0u8; 158392];
    let n = finish_bin(s, table, positions, normals, indices, materials, &mut out);
    if n <= REFUSAL_BYTES {
        return Ok(false);
    }
    output.write_all(&out[..n])?;
    Ok(true)
}

// Room for the longest answer. The array comes from a function of its own because its length is then known to the proof of its caller, which needn't count it.
fn room() -> [u8; 1197304] {
    [0u8; 1197304]
}

// Prints a sheet that was read. It stays a function of its own: compiled into `main`, its arrays would have the program touch their every page as it starts.
#[inline(never)]
fn print_large<W: Write>(
    output: &mut W,
    s: Reader,
    table: &[u32],
    positions: &[u32],
    normals: &[u32],
    indices: &[u32],
    materials: &[u64],
) -> io::Result<()> {
    let mut out = room();
    let n = finish_large(s, table, positions, normals, indices, materials, &mut out);
    output.write_all(&out[..n])
}

fn main(rt: HostRuntime) -> io::Result<()> {
    let mut table = [0u32; 1536];
    let mut positions = [0u32; 12288];
    let mut normals = [0u32; 12288];
    let mut indices = [0u32; 12288];
    let mut materials = [0u64; 4096];
    let s = read_input(
        &mut rt.reader(),
        limits(),
        &mut [0u8; 108],
        &mut table,
        &mut positions,
        &mut normals,
        &mut indices,
        &mut materials,
    );
    let out = &mut io::writer(&rt);
    if s.indices > BIN_INDICES {
        return print_large(out, s, &table, &positions, &normals, &indices, &materials);
    }
    if !print_bin(out, s, &table, &positions, &normals, &indices, &materials)? {
        print_large(out, s, &table, &positions, &normals, &indices, &materials)?;
    }
    Ok(())
}
