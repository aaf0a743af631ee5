// A sheet read line by line: the order of its lines and its limits.
#![tactic(auto)]

ghost use Rattle.std.specs.Prelude.{◌≡◌};
ghost use Rattle.sheet_reader_state.specs.Slices.{lent, read_form, read_into, read_roomy};
ghost use Rattle.sheet_line_effects.specs.Added.{Fitting, Roomy};

use refusals::Refusal;
use sheet_ends::refuse;
use sheet_line_effects::take_up;
use sheet_line_refusals::line_refusal;
use sheet_lines::{Kind, line_of};
use sheet_reader_state::Reader;
use sheet_room::fits;

// A line that has a form: refused, or taken up.
fn with_form(
    s: Reader,
    k: Kind,
    numbers: &[u64],
    table: &mut [u32],
    positions: &mut [u32],
    normals: &mut [u32],
    indices: &mut [u32],
    materials: &mut [u64],
) -> Reader
    requires { Fitting (lent s table.old positions.old normals.old indices.old materials.old) k numbers.now }
    ensures { lent result table.new positions.new normals.new indices.new materials.new
        ≡ read_form (lent s table.old positions.old normals.old indices.old materials.old) k
        numbers.now }
{
    match line_refusal(s.limits, s.place, s.rows, s.vertices, s.indices, k, numbers) {
        Err(r) => refuse(s, r),
        Ok(()) => take_up(s, k, numbers, table, positions, normals, indices, materials),
    }
}

// A line, where the slices have room and nothing has been refused.
fn read_roomy(
    s: Reader,
    line: &[u8],
    table: &mut [u32],
    positions: &mut [u32],
    normals: &mut [u32],
    indices: &mut [u32],
    materials: &mut [u64],
) -> Reader
    requires { Roomy (lent s table.old positions.old normals.old indices.old materials.old) }
    ensures { lent result table.new positions.new normals.new indices.new materials.new
        ≡ read_roomy (lent s table.old positions.old normals.old indices.old materials.old)
        line.now }
{
    let mut numbers = [0u64; 7];
    match line_of(line, &mut numbers) {
        Some(k) => with_form(
            s, k, &numbers, table, positions, normals, indices, materials,
        ),
        None => refuse(s, Refusal::Sheet),
    }
}

// The next state after a line, its LF left off. A refused state stays as it is; a state that the slices have no room for is refused.
pub fn read_line(
    s: Reader,
    line: &[u8],
    table: &mut [u32],
    positions: &mut [u32],
    normals: &mut [u32],
    indices: &mut [u32],
    materials: &mut [u64],
) -> Reader
    ensures { lent result table.new positions.new normals.new indices.new materials.new
        ≡ read_into (lent s table.old positions.old normals.old indices.old materials.old)
        line.now }
{
    let before = s.refusal;
    if before != 0 {
        return s;
    }
    if !fits(
        s,
        table,
        positions.len(),
        normals.len(),
        indices.len(),
        materials.len(),
    ) {
        return refuse(s, Refusal::SheetLimit);
    }
    read_roomy(s, line, table, positions, normals, indices, materials)
}
