// The uses of a body's edges laid out for the walk: points joined by key, rows by shell, and each use with its first use, row and run.
#![tactic(auto)]

mod shells;
mod uses;

pub use uses::lay_uses;
