// Reads a bench sheet from standard input and prints the finished mesh and its counts, or only the refusal.
#![tactic(auto)]

ghost use Rattle.std.specs.Prelude.{◌≡◌, ◌≤◌, length};
ghost use Rattle.sheet_line_order.specs.Limits.{bench_limits};
ghost use Rattle.bench_feed.specs.Feeding.{Answered};

use bench_run::finish_input;
use sheet_line_order::Limits;
use std::io;
use std::io::{Read, Write};

// What the program takes.
fn limits() -> Limits
    ensures { result ≡ bench_limits }
{
    Limits {
        rows: 16,
        vertices: 96,
        indices: 96,
        face: 63,
        result_vertices: 192,
        result_indices: 192,
    }
}

// Finishes the sheet of an input in arrays for a line of it, for what it says, for its body, for the stitched body and for the mesh, and in a work area;
// answers how many bytes of `out` are what the program prints.
fn finish<R: Read>(input: &mut R, out: &mut [u8]) -> usize
    ensures answered { Answered bench_limits out.old out.new result }
    ensures upper_bound { result ≤ length out.new }
{
    finish_input(
        input,
        limits(),
        &mut [0u8; 108],
        &mut [0u32; 96],
        &mut [0u32; 288],
        &mut [0u32; 288],
        &mut [0u32; 96],
        &mut [0u64; 64],
        &mut [0.0f32; 288],
        &mut [0.0f32; 288],
        &mut [0u32; 96],
        &mut [0u32; 96],
        &mut [0.0f32; 576],
        &mut [0.0f32; 576],
        &mut [0u32; 192],
        &mut [0.0f32; 576],
        &mut [0.0f32; 576],
        &mut [0u32; 192],
        &mut [0u32; 48],
        &mut [0u32; 64],
        &mut [0u64; 80],
        &mut [0u64; 4096],
        out,
    )
}

fn main(rt: HostRuntime) -> io::Result<()> {
    // an answer has at most 21,928 bytes
    let mut out = [0u8; 21928];
    let n = finish(&mut rt.reader(), &mut out);
    io::writer(&rt).write_all(&out[..n])
}
