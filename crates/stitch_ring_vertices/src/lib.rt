// The positions and normals of a split triangle's new vertices written to the stitched body.
#![tactic(auto)]

mod vertices;

pub use vertices::{append_normals, append_positions};
