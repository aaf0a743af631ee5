// The numbers of a plan and the words of a place; the plan, its grammar, its reading and its listing are defined in specs/.
#![tactic(auto)]

// The farthest that an offset or a place is from zero, 2^40.
pub const FARTHEST: u64 = 0x100_0000_0000;

// The largest number of a bin.
pub const MOST_BIN: u64 = 65535;

// How many numbers an entry of a lent list has, and the most entries.
pub const ENTRY_WIDTH: usize = 4;

pub const MOST_ENTRIES: usize = 4096;

// The words of a place, or of an offset, on three axes, each 2^40 more than its number.
#[derive(Clone, Copy)]
pub struct PlaceWords {
    pub x: u64,
    pub y: u64,
    pub z: u64,
}
