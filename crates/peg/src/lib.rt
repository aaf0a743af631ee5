// The bins nearest a peg, over placed bodies lent as one body with a place for each row.
#![tactic(auto)]

mod lookup;
mod places;

pub use lookup::nearest_bins;
