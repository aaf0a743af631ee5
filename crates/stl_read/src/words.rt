// Words of a file, lowest byte first.

ghost use Rattle.std.specs.Prelude.{◌≡◌, ◌+◌, ◌≤◌, ◌<◌, length};
ghost use Rattle.stl_definition.specs.Bytes.{word_bytes};
ghost use Rattle.stl_definition.specs.StepLaws.{word_at};
ghost use Rattle.stl_read.specs.Ready.{ByteAt};

// The byte at p.
fn byte_at(file: &[u8], p: usize) -> u32
    requires { p < length file.now }
    ensures { ByteAt file.now p result }
{
    file[p] as u32
}

// The word whose bytes stand from p on.
pub fn word_at(file: &[u8], p: usize) -> u32
    requires { p + word_bytes ≤ length file.now }
    ensures { result ≡ word_at file.now p }
{
    let a = byte_at(file, p);
    let b = byte_at(file, p + 1);
    let c = byte_at(file, p + 2);
    let d = byte_at(file, p + 3);
    a + 256 * (b + 256 * (c + 256 * d))
}
