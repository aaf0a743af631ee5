// The checks that every call begins with, those of a patch asked about alone, and the words that the checks count.
#![tactic(auto)]

mod checks;
mod clearing;
mod lone;

pub use checks::{failing_before_work, first_failing};
pub use clearing::clear_words;
pub use lone::lone_failing;
