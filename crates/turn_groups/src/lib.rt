// The groups of a body: walked, measured, inverted if their volume says so.
#![tactic(auto)]

mod settling;

pub use settling::walk_groups;
