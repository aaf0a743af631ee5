// The parts of an STL file by their lengths; its writer and its reader are defined in specs/.
#![tactic(auto)]

// The header of a file.
pub const HEADER_BYTES: usize = 80;

// The header and the count.
pub const HEAD_BYTES: usize = 84;

// A triangle: its normal, its corners and two bytes.
pub const FACET_BYTES: usize = 50;
