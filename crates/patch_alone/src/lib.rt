// A patch asked about alone: its checks, and then its volume, its reach or its escape.
#![tactic(auto)]

mod alone;
mod escape;

pub use alone::{farthest_alone, patch_volume_alone};
pub use escape::escapes_alone;
