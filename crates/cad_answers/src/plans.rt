// The answers of reading and writing a plan as their structs.

ghost use Rattle.std.specs.Prelude.{◌≡◌};
ghost use Rattle.refusals.specs.Numbers.{numbered};
ghost use Rattle.cad_answers.specs.Plans.{cad_plan_read, cad_plan_written};

use refusals::Refusal;

// 0 for the refusal and how many bins the plan lists; or the refusal's number and 0.
#[repr(C)]
#[derive(Clone, Copy, Default)]
pub struct CadPlanRead {
    pub refusal: u32,
    pub entries: u64,
}

// 0 for the refusal and how many bytes the listing's text has; or the refusal's number and 0.
#[repr(C)]
#[derive(Clone, Copy, Default)]
pub struct CadPlanWritten {
    pub refusal: u32,
    pub length: u64,
}

impl From<Result<usize, Refusal>> for CadPlanRead {
    ghost from_gives = { λ a r. r ≡ cad_plan_read (numbered a) };

    fn from(a: Result<usize, Refusal>) -> CadPlanRead {
        match a {
            Ok(n) => CadPlanRead {
                refusal: 0,
                entries: n as u64,
            },
            Err(refusal) => CadPlanRead {
                refusal: refusal.number(),
                ..CadPlanRead::default()
            },
        }
    }
}

impl From<Result<usize, Refusal>> for CadPlanWritten {
    ghost from_gives = { λ a r. r ≡ cad_plan_written (numbered a) };

    fn from(a: Result<usize, Refusal>) -> CadPlanWritten {
        match a {
            Ok(n) => CadPlanWritten {
                refusal: 0,
                length: n as u64,
            },
            Err(refusal) => CadPlanWritten {
                refusal: refusal.number(),
                ..CadPlanWritten::default()
            },
        }
    }
}
