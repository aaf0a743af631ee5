// The winding audit of a body: its face numbers with a count above 0, ranked, in the work area.
#![tactic(auto)]

mod bodies;
mod counts;
mod faces;
mod ranks;

pub use bodies::{ROW_WORDS, USE_WORDS, audit};
pub use ranks::COUNT_UNIT;
