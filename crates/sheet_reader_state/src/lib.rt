// What has been read of a sheet so far.
//
// Floats are kept as their bits. The table has six numbers a row, positions and normals three a vertex; each face number within the limits has a
// material, 0 for none and n + 1 for material n.
#![tactic(auto)]

use sheet_line_order::Limits;

// What has been read within a program's limits: the refusal or 0, the place in the order of lines, how much of the slices is written, and what stands
// in no slice.
#[derive(Clone, Copy)]
pub struct Reader {
    pub limits: Limits,
    pub refusal: u32,
    pub place: u32,
    pub rows: usize,
    pub vertices: usize,
    pub indices: usize,
    pub default: u64,
    pub sag: u64,
    pub minx: u64,
    pub miny: u64,
    pub minz: u64,
    pub maxx: u64,
    pub maxy: u64,
    pub maxz: u64,
}
