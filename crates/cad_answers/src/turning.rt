// turn's answer as its struct.

ghost use Rattle.std.specs.Prelude.{◌≡◌};
ghost use Rattle.refusals.specs.Numbers.{numbered};
ghost use Rattle.cad_answers.specs.Turning.{cad_turned};

use refusals::Refusal;
use turn_definition::TurnCounts;

// 0 for the refusal, the rows turned and how often a pair that contradicts colours was met; or the refusal's number, 0 and 0.
#[repr(C)]
#[derive(Clone, Copy, Default)]
pub struct CadTurned {
    pub refusal: u32,
    pub turned: u32,
    pub against: u64,
}

impl From<Result<TurnCounts, Refusal>> for CadTurned {
    ghost from_gives = { λ t r. r ≡ cad_turned (numbered t) };

    fn from(t: Result<TurnCounts, Refusal>) -> CadTurned {
        match t {
            Ok(c) => CadTurned {
                refusal: 0,
                turned: c.turned,
                against: c.against,
            },
            Err(refusal) => CadTurned {
                refusal: refusal.number(),
                ..CadTurned::default()
            },
        }
    }
}
