// Whether a patch is accepted, and if not, why.
#![tactic(auto)]

mod reference;
mod verdict;

pub use reference::Reference;
pub use verdict::verdict_of;

// Why a row is not in the mesh. An escape carries the reach and the span.
#[derive(Clone, Copy, Debug, PartialEq)]
pub enum Failure {
    Empty,
    Upstream(u32),
    Escape(f64, f64),
}
