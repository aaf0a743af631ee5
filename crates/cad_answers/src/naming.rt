// A cell and a key as their structs.

ghost use Rattle.std.specs.Prelude.{◌≡◌};
ghost use Rattle.cad_answers.specs.Naming.{cad_cell, cad_key};

use crate::assembling::flag;
use point_cell::CellAnswer;
use point_key::key::KeyAnswer;

// A cell, and 1 if it was clamped, else 0.
#[repr(C)]
#[derive(Clone, Copy)]
pub struct CadCell {
    pub value: i64,
    pub clamped: u32,
}

// A key, and 1 if one of its cells was clamped, else 0.
#[repr(C)]
#[derive(Clone, Copy)]
pub struct CadKey {
    pub value: u64,
    pub clamped: u32,
}

impl From<CellAnswer> for CadCell {
    ghost from_gives = { λ c r. r ≡ cad_cell c };

    fn from(c: CellAnswer) -> CadCell {
        CadCell {
            value: c.value,
            clamped: flag(c.clamped),
        }
    }
}

impl From<KeyAnswer> for CadKey {
    ghost from_gives = { λ k r. r ≡ cad_key k };

    fn from(k: KeyAnswer) -> CadKey {
        CadKey {
            value: k.value,
            clamped: flag(k.clamped),
        }
    }
}
