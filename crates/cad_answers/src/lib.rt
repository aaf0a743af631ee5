// The structs that the library's calls for C answer with, the refusal first, and the answers as these structs.
#![tactic(auto)]

mod assembling;
mod naming;
mod patch;
mod pegs;
mod plans;
mod reports;
mod stitching;
mod turning;

pub use assembling::CadAssembled;
pub use naming::{CadCell, CadKey};
pub use patch::{CadJudged, CadMeasured, box_of};
pub use pegs::CadNearestBins;
pub use plans::{CadPlanRead, CadPlanWritten};
pub use reports::{CadReported, page_of};
pub use stitching::CadStitched;
pub use turning::CadTurned;
