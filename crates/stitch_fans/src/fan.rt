// The fan of a split triangle from its corner 0.

ghost use Rattle.std.specs.Prelude.{[], ◌∷◌, get_or, take, drop};
ghost use Rattle.stitch_rings.specs.Added.{FanReady, FanWritten};
ghost use Rattle.stitch_fans.specs.FanSteps.{picked, edge_numbers, Held, PushRoom, PickReady, EdgeReady, Pushed};

use stitch_splits::EDGE_STEP;

// The fan so far: where its next index goes, and the vertex pushed last, if there was one.
#[derive(Clone, Copy)]
struct Fan {
    o: usize,
    last: Option<u32>,
}

// Vertex x is pushed: with the one before it, if there was one, it makes a triangle from corner a.
fn push(out: &mut [u32], a: u32, f: Fan, x: u32) -> Fan
    requires { PushRoom f 1 out.old }
    ensures { Pushed a f (x ∷ []) out.old out.new result }
{
    let o = f.o;
    match f.last {
        None => Fan { o, last: Some(x) },
        Some(last) => {
            out[o] = a;
            out[o + 1] = last;
            out[o + 2] = x;
            Fan {
                o: o + 3,
                last: Some(x),
            }
        }
    }
}

// Vertex x is pushed if the entry at place k is on edge e.
fn push_if(w: &[u64], k: usize, e: u64, out: &mut [u32], a: u32, f: Fan, x: u32) -> Fan
    requires { PickReady w.now k e x f out.old }
    ensures { Pushed a f (picked e (get_or w.now k 0) x) out.old out.new result }
{
    if w[k] / EDGE_STEP == e {
        return push(out, a, f, x);
    }
    f
}

// The new vertices on edge e are pushed, of `count` entries, the first of which has the number `next`.
fn push_edge(
    w: &[u64],
    at: usize,
    count: usize,
    e: u64,
    next: usize,
    out: &mut [u32],
    a: u32,
    f: Fan,
) -> Fan
    requires { EdgeReady w.now at count e next f out.old }
    ensures { Pushed a f (edge_numbers e next (take count (drop at w.now))) out.old out.new result }
{
    let mut g = f;
    for j in 0..count {
        g = push_if(w, at + j, e, out, a, g, (next + j) as u32);
    }
    g
}

// How many of `kept` words stand from `ts` on.
fn held(w: &[u64], ts: usize, kept: usize) -> usize
    ensures { Held w.now ts kept result }
{
    w.len().saturating_sub(ts).min(kept)
}

// The fan of the triangle a, b, c with `kept` new vertices, the first of which has the number `next`, is written from place o on; the answer is where it ends.
pub fn append_fan(
    w: &[u64],
    at: usize,
    ts: usize,
    kept: usize,
    a: u32,
    b: u32,
    c: u32,
    next: usize,
    out: &mut [u32],
    o: usize,
) -> usize
    requires { FanReady a b c next w.now at kept o out.old }
    ensures { FanWritten a b c next w.now at ts kept o out.old out.new result }
{
    let count = held(w, ts, kept);
    let empty = Fan { o, last: None };
    let f0 = push_edge(w, at, count, 0, next, out, a, empty);
    let fb = push(out, a, f0, b);
    let f1 = push_edge(w, at, count, 1, next, out, a, fb);
    let fc = push(out, a, f1, c);
    let f2 = push_edge(w, at, count, 2, next, out, a, fc);
    f2.o
}
