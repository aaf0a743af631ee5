// The cracks of an accepted body closed, or the body copied.
#![tactic(auto)]

mod closing;

pub use closing::{stitch_nothing, stitch_open};
