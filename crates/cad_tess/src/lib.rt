// The library's calls for C: each is a proved function under its C name, its answer a struct with the refusal first.
#![tactic(auto)]

mod assembling;
mod faces;
mod naming;
mod patch;
mod pegs;
mod plans;
mod reports;
mod steps;
mod stitching;
mod turning;

pub use assembling::cad_assemble;
pub use faces::{cad_face_at, cad_face_indices};
pub use naming::{cad_cell, cad_key};
pub use patch::{cad_escapes_body, cad_farthest, cad_patch_volume};
pub use pegs::cad_nearest_bins;
pub use plans::{cad_read_plan, cad_write_plan};
pub use reports::cad_report;
pub use steps::{cad_larger, cad_narrow, cad_round, cad_sqrt, cad_widen};
pub use stitching::cad_stitch;
pub use turning::cad_turn;
