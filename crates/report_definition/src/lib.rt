// The report's page; the page and what adding a body to it answers are defined in specs/.
#![tactic(auto)]

// The page over finished bodies: their number, faces accepted and failed, the meshes' triangles and vertices, failures by kind, faces listed, and the
// accepted share as a reduced fraction.
#[derive(Clone, Copy)]
pub struct Page {
    pub bodies: u64,
    pub accepted: u64,
    pub failed: u64,
    pub triangles: u64,
    pub vertices: u64,
    pub empty: u64,
    pub upstream: u64,
    pub escaped: u64,
    pub listed: u64,
    pub share_accepted: u64,
    pub share_faces: u64,
}
