// What assemble answers; what it does is defined in specs/.
#![tactic(auto)]

// How many vertices, indices, parts, ranges and failures were written; the mesh's edges, those used once, those used more than twice; and whether it is closed.
#[derive(Clone, Copy)]
pub struct MeshCounts {
    pub vertices: u32,
    pub indices: u32,
    pub parts: u32,
    pub ranges: u32,
    pub failures: u32,
    pub edges: u64,
    pub opens: u64,
    pub overs: u64,
    pub closed: bool,
}
