// The cell of a coordinate and the key of a point.

ghost use Rattle.std.specs.Prelude.{◌≡◌};
ghost use Rattle.cad_answers.specs.Naming.{cad_cell, cad_key};
ghost use Rattle.point_cell.specs.Told.{cell_told};
ghost use Rattle.point_key.specs.Told.{key_told};

use cad_answers::{CadCell, CadKey};

// The whole number nearest 1,000,000 times v, halves away from zero, clamped to signed 64 bits, and whether it was clamped; 0 for a NaN, which isn't.
#[unsafe(no_mangle)]
pub extern "C" fn cad_cell(v: f32) -> CadCell
    ensures { result ≡ cad_cell (cell_told v) }
{
    point_cell::cell(v).into()
}

// The 64-bit key of a point's three cells, and whether one of them was clamped.
#[unsafe(no_mangle)]
pub extern "C" fn cad_key(x: f32, y: f32, z: f32) -> CadKey
    ensures { result ≡ cad_key (key_told x y z) }
{
    point_key::key::key(x, y, z).into()
}
