// Checks 21 to 24: the patches' index counts, indices, positions and normals.
#![tactic(auto)]

mod patch;

pub use patch::{any_at_least, any_clamps, any_number_not_finite, patch_failing};
