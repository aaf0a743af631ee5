// How far a patch reaches from the centre of the body's box, and whether it escapes.
#![tactic(auto)]

mod reach;

pub use reach::{escapes_body, farthest};
