// A table of chains in 4·n words: a digest of each name, the representatives, the links, the heads of the chains.
// A link is 0, or 1 + an item; it leads to a smaller item, so that a walk along a chain ends.
#![tactic(auto)]

ghost use Rattle.std.specs.Prelude.{◌≡◌, ◌*◌, ◌≤◌, eqb, length, get_or, take};
ghost use Rattle.join_table.specs.Naming.{names_of};
ghost use Rattle.join_table.specs.Table.{Bucket, Sized, Compared, Search, Hit, Turn, Step, Begun, Ready};
ghost use Rattle.join_definition.specs.Join.{Joined};

use join_definition::{HEADS, JOIN_WORDS, LINKS};
use point_key::multiply::wrapping_mul;
use point_key::vertex::same_bits;

// Odd numbers by which a digest is multiplied to find its chain, and 2^32.
const FIRST: u64 = 11400714819323198485;

const SECOND: u64 = 15485907386658061715;

const HALF: u64 = 4294967296;

// Where the names of the items are.
#[derive(Clone, Copy)]
pub enum Source {
    // The words are the names.
    Words,
    // The bits of the vertices are the names, and the words their digests.
    Bits,
    // So are the bits with -0.0 as 0.0 on each axis.
    Zeros,
}

// The chain of the items with digest d: all 64 bits decide the high 32 of a product, and those which of the n chains.
fn bucket(d: u64, n: usize) -> usize
    requires { Sized n }
    ensures { Bucket n d result }
{
    let p = wrapping_mul(d, FIRST);
    let h = wrapping_mul(p ^ (p / HALF), SECOND) / HALF;
    (h * (n as u64) / HALF) as usize
}

// Whether the items k and i have the same name. Equal digests are confirmed where they are not the names.
fn same_name(source: Source, positions: &[f32], w: &[u64], n: usize, k: usize, i: usize) -> bool
    requires { Compared (names_of source positions.now (take n w.now)) n k i w.now }
    ensures { result ≡ eqb (get_or (names_of source positions.now (take n w.now)) k 0)
        (get_or (names_of source positions.now (take n w.now)) i 0) }
{
    if w[k] != w[i] {
        return false;
    }
    match source {
        Source::Words => true,
        Source::Bits => same_bits(positions, k, i, false),
        Source::Zeros => same_bits(positions, k, i, true),
    }
}

// The link to the first item of the name of item i, from the link `start` on; 0 where no item below has it.
fn find(source: Source, positions: &[f32], w: &[u64], n: usize, i: usize, start: usize) -> usize
    requires { Search (names_of source positions.now (take n w.now)) n i w.now start }
    ensures { Hit (names_of source positions.now (take n w.now)) i result }
{
    let mut p = start;
    while p != 0 {
        let k = p - 1;
        if same_name(source, positions, w, n, k, i) {
            return p;
        }
        p = w[LINKS * n + k] as usize;
    }
    0
}

// Item i is joined: its representative is found, or it is put at the head of its chain.
fn join_one(source: Source, positions: &[f32], w: &mut [u64], n: usize, i: usize)
    requires { Turn (names_of source positions.now (take n w.old)) n i w.old }
    ensures { Step (names_of source positions.now (take n w.old)) n i w.old w.new }
{
    let at = HEADS * n + bucket(w[i], n);
    let head = w[at];
    let r = find(source, positions, w, n, i, head as usize);
    if r == 0 {
        w[n + i] = i as u64;
        w[LINKS * n + i] = head;
        w[at] = i as u64 + 1;
    } else {
        w[n + i] = (r - 1) as u64;
    }
}

// All chains become empty.
fn start(w: &mut [u64], n: usize)
    requires { 4 * n ≤ length w.old }
    ensures { Begun n w.old w.new }
{
    w[HEADS * n..JOIN_WORDS * n].fill(0);
}

// For each of the n items whose digests are the first words of w, the first item of the same name, in the next n words.
pub fn join_table(source: Source, positions: &[f32], w: &mut [u64], n: usize)
    requires { Ready (names_of source positions.now (take n w.old)) n w.old }
    ensures { Joined (names_of source positions.now (take n w.old)) n w.old w.new }
{
    start(w, n);
    for i in 0..n {
        join_one(source, positions, w, n, i);
    }
}
