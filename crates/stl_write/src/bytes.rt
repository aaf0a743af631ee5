// Words and zeros written as bytes.

ghost use Rattle.std.specs.Prelude.{◌++◌, ◌+◌, ◌*◌, ◌≤◌, length};
ghost use Rattle.slice_append.specs.Appended.{Appended};
ghost use Rattle.stl_definition.specs.Bytes.{word, word_bytes};

// The bytes of w are written to `out` from place o on, the lowest first.
pub fn put_word(out: &mut [u8], o: usize, w: u32)
    requires { o + word_bytes ≤ length out.old }
    ensures { Appended o (word w) out.old out.new }
{
    out[o] = (w % 256) as u8;
    out[o + 1] = (w / 256 % 256) as u8;
    out[o + 2] = (w / 256 / 256 % 256) as u8;
    out[o + 3] = (w / 256 / 256 / 256 % 256) as u8;
}

// The bytes of three words are written to `out` from place o on.
pub fn put_words(out: &mut [u8], o: usize, a: u32, b: u32, c: u32)
    requires { o + 3 * word_bytes ≤ length out.old }
    ensures { Appended o (word a ++ word b ++ word c) out.old out.new }
{
    put_word(out, o, a);
    put_word(out, o + 4, b);
    put_word(out, o + 8, c);
}
