// What each kind of line adds.
#![tactic(auto)]

ghost use Rattle.std.specs.Prelude.{◌≡◌, ◌+◌, ◌*◌, ◌%◌, ◌^◌, ◌<◌, length, set};
ghost use Rattle.sheet_reader_state.specs.Slices.{boxed, defaulted, lent, sagged, taken_up};
ghost use Rattle.sheet_line_effects.specs.Added.{Ready, RowAdded, RowRoom, TriangleAdded, TriangleRoom, VertexAdded, VertexRoom};

use body_rows::{INDICES_BACK, ROW_WIDTH, VERTICES_BACK};
use sheet_lines::Kind;
use sheet_reader_state::Reader;
use sheet_storing::{low, raise, store_low, store_row};

// The box, from six numbers.
fn with_box(s: Reader, numbers: &[u64]) -> Reader
    requires { 6 < length numbers.now }
    ensures { result ≡ boxed s numbers.now }
{
    Reader {
        minx: numbers[0],
        miny: numbers[1],
        minz: numbers[2],
        maxx: numbers[3],
        maxy: numbers[4],
        maxz: numbers[5],
        place: 1,
        ..s
    }
}

// The sag.
fn with_sag(s: Reader, sag: u64) -> Reader
    ensures { result ≡ sagged s sag }
{
    Reader { sag, place: 2, ..s }
}

// The default, 0 for none.
fn with_default(s: Reader, default: u64) -> Reader
    ensures { result ≡ defaulted s default }
{
    Reader {
        default,
        place: 3,
        ..s
    }
}

// The entry of a material.
fn entry_of(material: u64) -> u64
    ensures { result ≡ material % 2 ^ 32 + 1 }
{
    material % 4294967296 + 1
}

// The material of a face.
fn set_material(materials: &mut [u64], face: u64, material: u64)
    requires { face < length materials.old }
    ensures { materials.new ≡ set materials.old face (material % 2 ^ 32 + 1) }
{
    materials[face as usize] = entry_of(material);
}

// A row without a vertex, and the place after it.
fn add_row(
    s: Reader,
    table: &mut [u32],
    shell: u64,
    face: u64,
    outcome: u64,
    bin: u64,
    place: u32,
) -> Reader
    requires { RowRoom s table.old }
    ensures { RowAdded s table.old shell face outcome bin place result table.new }
{
    let rows = s.rows;
    store_row(
        table,
        ROW_WIDTH * rows,
        low(shell),
        low(face),
        low(outcome),
        low(bin),
    );
    Reader {
        rows: rows + 1,
        place,
        ..s
    }
}

// A vertex of the last row.
fn add_vertex(
    s: Reader,
    table: &mut [u32],
    positions: &mut [u32],
    normals: &mut [u32],
    numbers: &[u64],
) -> Reader
    requires { VertexRoom s table.old positions.old normals.old numbers.now }
    ensures { VertexAdded s table.old positions.old normals.old numbers.now result table.new
        positions.new normals.new }
{
    let rows = s.rows;
    let at = 3 * s.vertices;
    store_low(positions, at, numbers, 0);
    store_low(normals, at, numbers, 3);
    raise(table, ROW_WIDTH * rows - VERTICES_BACK, 1);
    Reader {
        vertices: s.vertices + 1,
        place: 4,
        ..s
    }
}

// A triangle of the last row.
fn add_triangle(s: Reader, table: &mut [u32], indices: &mut [u32], numbers: &[u64]) -> Reader
    requires { TriangleRoom s table.old indices.old numbers.now }
    ensures { TriangleAdded s table.old indices.old numbers.now result table.new indices.new }
{
    let rows = s.rows;
    store_low(indices, s.indices, numbers, 0);
    raise(table, ROW_WIDTH * rows - INDICES_BACK, 3);
    Reader {
        indices: s.indices + 3,
        place: 5,
        ..s
    }
}

// A line that isn't refused.
pub fn take_up(
    s: Reader,
    k: Kind,
    numbers: &[u64],
    table: &mut [u32],
    positions: &mut [u32],
    normals: &mut [u32],
    indices: &mut [u32],
    materials: &mut [u64],
) -> Reader
    requires { Ready (lent s table.old positions.old normals.old indices.old materials.old) k numbers.now }
    ensures { lent result table.new positions.new normals.new indices.new materials.new
        ≡ taken_up (lent s table.old positions.old normals.old indices.old materials.old) k
        numbers.now }
{
    match k {
        Kind::Box => with_box(s, numbers),
        Kind::Sag => with_sag(s, numbers[0]),
        Kind::NoDefault => with_default(s, 0),
        Kind::Default => with_default(s, entry_of(numbers[0])),
        Kind::Material => {
            set_material(materials, numbers[0], numbers[1]);
            s
        }
        Kind::Face => add_row(s, table, numbers[0], numbers[1], 0, 0, 4),
        Kind::FaceBin => add_row(s, table, numbers[0], numbers[1], 0, numbers[2], 4),
        Kind::Vertex => add_vertex(s, table, positions, normals, numbers),
        Kind::Triangle => add_triangle(s, table, indices, numbers),
        Kind::Fail => add_row(s, table, numbers[0], numbers[1], numbers[2], 0, 6),
        Kind::FailBin => add_row(s, table, numbers[0], numbers[1], numbers[2], numbers[3], 6),
    }
}
