// The volume of a group, and whether its colours are inverted.
#![tactic(auto)]

mod volume;

pub use volume::inverts_group;
