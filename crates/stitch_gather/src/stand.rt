// The vertex that stands for each point: the last corner of an open triangle that is it. Names of v vertices are the first words of the work area, behind them
// stands for each the first vertex of its point, behind these a word for each point by its first vertex.

ghost use Rattle.std.specs.Prelude.{◌≡◌};
ghost use Rattle.stitch_gather.specs.Standing.{Standable, Stood, PlaceReady, placed, ListReady, ListStood};

// The words of the points stand behind two regions of v words each: names and first vertices.
pub const STANDING: usize = 2;

// Vertex g stands for its point, of which the first vertex is listed from `at` on if none stood for it before; the answer is how many are listed then.
pub fn stand(w: &mut [u64], v: usize, at: usize, count: usize, g: usize) -> usize
    requires { Standable v at count g w.old }
    ensures { Stood v at count g w.old w.new result }
{
    let first = w[v + g] as usize;
    let is_new = w[STANDING * v + first] == 0;
    w[STANDING * v + first] = g as u64 + 1;
    if is_new {
        w[at + count] = first as u64;
        return count + 1;
    }
    count
}

// In place of the first vertex at place j the vertex that stands for its point, and its name at the same place from `ts` on.
fn put_standing(w: &mut [u64], v: usize, at: usize, ts: usize, j: usize)
    requires { PlaceReady v at ts j w.old }
    ensures { w.new ≡ placed w.old v at ts j }
{
    let first = w[at + j] as usize;
    let g = w[STANDING * v + first] - 1;
    let name = w[g as usize];
    w[at + j] = g;
    w[ts + j] = name;
}

// In place of each of the n first vertices the one that stands for its point, and their names from `ts` on.
pub fn list_standing(w: &mut [u64], v: usize, at: usize, ts: usize, n: usize)
    requires { ListReady v at ts n w.old }
    ensures { ListStood v at ts n w.old w.new }
{
    for j in 0..n {
        put_standing(w, v, at, ts, j);
    }
}
