// When a line of the sheet is refused: out of order, failing with 0, or past a limit.
#![tactic(auto)]

ghost use Rattle.std.specs.Prelude.{◌≡◌, ◌+◌, ◌<◌, ◌||◌, leb, ltb, length, take};
ghost use Rattle.refusals.specs.Numbers.{failing};
ghost use Rattle.sheet_lines.specs.Counted.{count_in};
ghost use Rattle.sheet_lines.specs.Forms.{form};
ghost use Rattle.sheet_line_order.specs.Reading.{fails_with_zero, in_order, order_of};
ghost use Rattle.sheet_line_order.specs.Refusals.{Limit, LineRefusal};

use refusals::Refusal;
use sheet_line_order::Limits;
use sheet_lines::Kind;

// The first place at which a kind may stand.
fn first_place(k: Kind) -> u32
    ensures { result ≡ (order_of k).first }
{
    match k {
        Kind::Box => 0,
        Kind::Sag => 1,
        Kind::NoDefault | Kind::Default => 2,
        Kind::Material | Kind::Face | Kind::FaceBin | Kind::Fail | Kind::FailBin => 3,
        Kind::Vertex | Kind::Triangle => 4,
    }
}

// The last place at which a kind may stand.
fn last_place(k: Kind) -> u32
    ensures { result ≡ (order_of k).last }
{
    match k {
        Kind::Box => 0,
        Kind::Sag => 1,
        Kind::NoDefault | Kind::Default => 2,
        Kind::Material => 3,
        Kind::Vertex => 4,
        Kind::Triangle => 5,
        Kind::Face | Kind::FaceBin | Kind::Fail | Kind::FailBin => 6,
    }
}

// Whether a kind may stand at a place.
fn in_order(place: u32, k: Kind) -> bool
    ensures { result ≡ in_order place k }
{
    first_place(k) <= place && place <= last_place(k)
}

// Whether a line is a fail line with number 0.
fn fails_with_zero(k: Kind, numbers: &[u64]) -> bool
    requires { 6 < length numbers.now }
    ensures { result ≡ fails_with_zero k (take (count_in (form k)) numbers.now) }
{
    match k {
        Kind::Fail | Kind::FailBin => numbers[2] == 0,
        _ => false,
    }
}

// Whether a row of this face passes a limit.
fn row_passes(limits: Limits, rows: usize, face: u64) -> bool
    ensures { result ≡ ltb limits.face face || leb limits.rows rows }
{
    limits.face < face || limits.rows <= rows
}

// Whether three indices more pass the limit.
fn triangle_passes(limit: usize, indices: usize) -> bool
    ensures { result ≡ ltb limit (indices + 3) }
{
    limit < 3 || limit - 3 < indices
}

// Whether a line passes a program limit.
fn passes_limit(
    limits: Limits,
    rows: usize,
    vertices: usize,
    indices: usize,
    k: Kind,
    numbers: &[u64],
) -> bool
    requires { 6 < length numbers.now }
    ensures { Limit limits rows vertices indices k (take (count_in (form k)) numbers.now) result }
{
    match k {
        Kind::Box | Kind::Sag | Kind::NoDefault | Kind::Default => false,
        Kind::Material => limits.face < numbers[0],
        Kind::Vertex => limits.vertices <= vertices,
        Kind::Triangle => triangle_passes(limits.indices, indices),
        Kind::Face | Kind::FaceBin | Kind::Fail | Kind::FailBin => {
            row_passes(limits, rows, numbers[1])
        }
    }
}

// The refusal of a line that has a form, if it isn't taken: for its order and its number before a limit.
pub fn line_refusal(
    limits: Limits,
    place: u32,
    rows: usize,
    vertices: usize,
    indices: usize,
    k: Kind,
    numbers: &[u64],
) -> Result<(), Refusal>
    requires { 6 < length numbers.now }
    ensures { LineRefusal limits place rows vertices indices k (take (count_in (form k)) numbers.now) (failing result) }
{
    if !in_order(place, k) || fails_with_zero(k, numbers) {
        return Err(Refusal::Sheet);
    }
    if passes_limit(limits, rows, vertices, indices, k, numbers) {
        return Err(Refusal::SheetLimit);
    }
    Ok(())
}
