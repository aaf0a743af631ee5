// Joining words for a benchmark in another language: the words are joined if they have room, else left alone.
#![tactic(auto)]

ghost use Rattle.join_speed.specs.Tried.{Tried};

// Joins the first n words of w; the answer is 0, or 1 where there is no room.
#[unsafe(no_mangle)]
pub extern "C" fn speed_join_words(w: &mut [u64], n: usize) -> u32
    ensures { Tried n w.old w.new result }
{
    if n >= 4294967296 {
        return 1;
    }
    if w.len() / 4 < n {
        return 1;
    }
    join_points::words::join_words(w, n);
    0
}
