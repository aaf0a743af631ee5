// The answer of a lookup of the bins nearest a peg as its struct.

ghost use Rattle.std.specs.Prelude.{◌≡◌};
ghost use Rattle.refusals.specs.Numbers.{numbered};
ghost use Rattle.cad_answers.specs.Pegs.{cad_nearest_bins};

use refusals::Refusal;

// 0 for the refusal and how many bins are nearest; or the refusal's number and 0.
#[repr(C)]
#[derive(Clone, Copy, Default)]
pub struct CadNearestBins {
    pub refusal: u32,
    pub bins: u32,
}

impl From<Result<u32, Refusal>> for CadNearestBins {
    ghost from_gives = { λ a r. r ≡ cad_nearest_bins (numbered a) };

    fn from(a: Result<u32, Refusal>) -> CadNearestBins {
        match a {
            Ok(n) => CadNearestBins {
                refusal: 0,
                bins: n,
            },
            Err(refusal) => CadNearestBins {
                refusal: refusal.number(),
                ..CadNearestBins::default()
            },
        }
    }
}
