// Joining by names of 64 bits.
ghost use Rattle.std.specs.Prelude.{take};
ghost use Rattle.join_definition.specs.Join.{Joined, JoinedAt, JoinRoom, RoomAt};

use join_definition::JOIN_WORDS;
use join_table::{Source, join_table};

// For each of the n items whose names are the first words of w, the first item of the same name, in the next n words.
pub fn join_words(w: &mut [u64], n: usize)
    requires { JoinRoom n w.old }
    ensures { Joined (take n w.old) n w.old w.new }
{
    let unasked = [0.0f32; 1];
    join_table(Source::Words, &unasked, w, n);
}

// The same for n items whose names stand from `at` on: their table is the 4 n words from there.
pub fn join_words_at(w: &mut [u64], at: usize, n: usize)
    requires { RoomAt at n w.old }
    ensures { JoinedAt at n w.old w.new }
{
    let end = at + JOIN_WORDS * n;
    join_words(&mut w[at..end], n);
}
