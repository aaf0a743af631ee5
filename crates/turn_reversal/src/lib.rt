// Coloured rows reversed where they stand.
#![tactic(auto)]

mod reverse;

pub use reverse::reverse_rows;
