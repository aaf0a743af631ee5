// What turn answers; turning itself is defined in specs/.
#![tactic(auto)]

// How many rows were turned, and how often a pair that contradicts colours was met.
#[derive(Clone, Copy)]
pub struct TurnCounts {
    pub turned: u32,
    pub against: u64,
}
