// The rows of the flat table, `ROW_WIDTH` numbers each.

ghost use Rattle.std.specs.Prelude.{◌≡◌, ◌<◌, length};
ghost use Rattle.body_rows.specs.Body.{rows_of};
ghost use Rattle.body_rows.specs.Rows.{InTable, column, row_at};

// How many numbers of the flat table make a row.
pub const ROW_WIDTH: usize = 6;

// How far before a row's end its vertex count stands, and its index count.
pub const VERTICES_BACK: usize = 3;

pub const INDICES_BACK: usize = 2;

// How many whole rows the table has.
pub fn row_count(rows: &[u32]) -> usize
    ensures { result ≡ length (rows_of rows.now) }
{
    rows.len() / ROW_WIDTH
}

// Number j of row k.
pub fn number(rows: &[u32], k: usize, j: usize) -> u32
    requires { InTable rows.now k j }
    ensures { result ≡ column j (row_at rows.now k) }
{
    rows[ROW_WIDTH * k + j]
}

// The shell number of row k.
pub fn shell(rows: &[u32], k: usize) -> u32
    requires { k < length (rows_of rows.now) }
    ensures { result ≡ (row_at rows.now k).shell }
{
    number(rows, k, 0)
}

// The face number of row k.
pub fn face(rows: &[u32], k: usize) -> u32
    requires { k < length (rows_of rows.now) }
    ensures { result ≡ (row_at rows.now k).face }
{
    number(rows, k, 1)
}

// The outcome of row k: 0 for a patch, 1 to 255 for an upstream failure.
pub fn outcome(rows: &[u32], k: usize) -> u32
    requires { k < length (rows_of rows.now) }
    ensures { result ≡ (row_at rows.now k).outcome }
{
    number(rows, k, 2)
}

// The vertex count of row k.
pub fn vertices(rows: &[u32], k: usize) -> u32
    requires { k < length (rows_of rows.now) }
    ensures { result ≡ (row_at rows.now k).vertices }
{
    number(rows, k, 3)
}

// The index count of row k.
pub fn indices(rows: &[u32], k: usize) -> u32
    requires { k < length (rows_of rows.now) }
    ensures { result ≡ (row_at rows.now k).indices }
{
    number(rows, k, 4)
}

// The bin number of row k.
pub fn bin(rows: &[u32], k: usize) -> u32
    requires { k < length (rows_of rows.now) }
    ensures { result ≡ (row_at rows.now k).bin }
{
    number(rows, k, 5)
}
