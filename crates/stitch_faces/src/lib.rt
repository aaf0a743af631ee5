// A row's indices after stitching: a stretch of the list that holds them, and a copy of it.
#![tactic(auto)]

mod faces;

pub use faces::{copy_face_indices, face_indices};
