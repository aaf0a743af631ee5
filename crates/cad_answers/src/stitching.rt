// stitch's answer as its struct.

ghost use Rattle.std.specs.Prelude.{◌≡◌};
ghost use Rattle.refusals.specs.Numbers.{numbered};
ghost use Rattle.cad_answers.specs.Stitching.{cad_stitched};

use refusals::Refusal;
use stitch_definition::Sizes;

// 0 for the refusal, the vertices and indices of the stitched body and the points that split a triangle; or the refusal's number and zeros.
#[repr(C)]
#[derive(Clone, Copy, Default)]
pub struct CadStitched {
    pub refusal: u32,
    pub vertices: u32,
    pub indices: u32,
    pub splits: u64,
}

impl From<Result<Sizes, Refusal>> for CadStitched {
    ghost from_gives = { λ t r. r ≡ cad_stitched (numbered t) };

    fn from(t: Result<Sizes, Refusal>) -> CadStitched {
        match t {
            Ok(s) => CadStitched {
                refusal: 0,
                vertices: s.vertices,
                indices: s.indices,
                splits: s.splits,
            },
            Err(refusal) => CadStitched {
                refusal: refusal.number(),
                ..CadStitched::default()
            },
        }
    }
}
