// The answers about a patch alone as their structs, and the box of six numbers, minimum first.

ghost use Rattle.std.specs.Prelude.{◌≡◌, false};
ghost use Rattle.refusals.specs.Numbers.{numbered};
ghost use Rattle.patch_geometry.specs.Geometry.{zero64};
ghost use Rattle.patch_alone.specs.Answers.{answer_as};
ghost use Rattle.cad_answers.specs.Answers.{box_of, cad_measured, cad_judged};

use crate::assembling::flag;
use patch_geometry::{Aabb, Vec3};
use refusals::Refusal;

// A number: 0 for the refusal, or the refusal's number and 0.
#[repr(C)]
#[derive(Clone, Copy, Default)]
pub struct CadMeasured {
    pub refusal: u32,
    pub value: f64,
}

// A verdict, 1 or 0: 0 for the refusal, or the refusal's number and 0.
#[repr(C)]
#[derive(Clone, Copy, Default)]
pub struct CadJudged {
    pub refusal: u32,
    pub verdict: u32,
}

// The box with these corners.
pub fn box_of(x0: f64, y0: f64, z0: f64, x1: f64, y1: f64, z1: f64) -> Aabb
    ensures { result ≡ box_of x0 y0 z0 x1 y1 z1 }
{
    Aabb {
        min: Vec3 {
            x: x0,
            y: y0,
            z: z0,
        },
        max: Vec3 {
            x: x1,
            y: y1,
            z: z1,
        },
    }
}

impl From<Result<f64, Refusal>> for CadMeasured {
    ghost from_gives = { λ m r. r ≡ cad_measured (answer_as zero64 (numbered m)) };

    fn from(m: Result<f64, Refusal>) -> CadMeasured {
        match m {
            Ok(x) => CadMeasured {
                refusal: 0,
                value: x,
            },
            Err(refusal) => CadMeasured {
                refusal: refusal.number(),
                ..CadMeasured::default()
            },
        }
    }
}

impl From<Result<bool, Refusal>> for CadJudged {
    ghost from_gives = { λ j r. r ≡ cad_judged (answer_as false (numbered j)) };

    fn from(j: Result<bool, Refusal>) -> CadJudged {
        match j {
            Ok(b) => CadJudged {
                refusal: 0,
                verdict: flag(b),
            },
            Err(refusal) => CadJudged {
                refusal: refusal.number(),
                ..CadJudged::default()
            },
        }
    }
}
