// The report: a stitched body added to the page, and its wound faces to the lent list.
#![tactic(auto)]

mod list;
mod reporting;

pub use reporting::report;
