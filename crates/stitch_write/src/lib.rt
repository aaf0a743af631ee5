// The stitched body written to the second slices.
#![tactic(auto)]

mod table;
mod write;

pub use write::write_body;
