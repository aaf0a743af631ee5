// The edges of a mesh counted in the work area: its points joined by a rule, its uses named, joined and tallied.
#![tactic(auto)]

mod mesh;

pub use mesh::{MeshEdges, count_mesh};
