// The fan of a split triangle written to the stitched body.
#![tactic(auto)]

mod fan;

pub use fan::append_fan;
