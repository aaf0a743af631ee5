// The stitched body put into the second slices: written, or copied if it has no new vertex.
#![tactic(auto)]

mod copy;
mod put;

pub use copy::copy_body;
pub use put::put_body;
