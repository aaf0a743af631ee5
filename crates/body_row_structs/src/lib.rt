// The face table lent as a slice of rows: how many there are, and one of them.
#![tactic(auto)]

ghost use Rattle.std.specs.Prelude.{◌≡◌, length};
ghost use Rattle.body_row_structs.specs.FaceRows.{face_at, row_at};

use mesh_materials::FaceId;

// A row of the face table; an outcome of 0 is a patch, 1 to 255 an upstream failure.
#[repr(C)]
#[derive(Clone, Copy)]
pub struct Row {
    pub shell: u32,
    pub face: u32,
    pub outcome: u32,
    pub vertices: u32,
    pub indices: u32,
    pub bin: u32,
}

// F: how many rows the table has.
pub fn row_count(rows: &[Row]) -> usize
    ensures { result ≡ length rows.now }
{
    rows.len()
}

// Row k, or a row of zeros past the end.
pub fn row_at(rows: &[Row], k: usize) -> Row
    ensures { result ≡ row_at rows.now k }
{
    rows.get(k).copied().unwrap_or(Row {
        shell: 0,
        face: 0,
        outcome: 0,
        vertices: 0,
        indices: 0,
        bin: 0,
    })
}

// The face of row k, or face 0 past the end.
pub fn face_at(rows: &[Row], k: usize) -> FaceId
    ensures { result ≡ face_at rows.now k }
{
    FaceId(row_at(rows, k).face)
}
