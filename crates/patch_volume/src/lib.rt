// A patch's signed volume.
#![tactic(auto)]

mod volume;

pub use volume::{patch_volume, triple};
