// assemble's answer as its struct.

ghost use Rattle.std.specs.Prelude.{◌≡◌, cond};
ghost use Rattle.refusals.specs.Numbers.{numbered};
ghost use Rattle.cad_answers.specs.Assembling.{cad_assembled};

use mesh_definition::MeshCounts;
use refusals::Refusal;

// 0 for the refusal, how many vertices, indices, parts, ranges and failures were written, the mesh's edges, those used once and those used more than twice,
// and 1 if it is closed; or the refusal's number and zeros.
#[repr(C)]
#[derive(Clone, Copy, Default)]
pub struct CadAssembled {
    pub refusal: u32,
    pub vertices: u32,
    pub indices: u32,
    pub parts: u32,
    pub ranges: u32,
    pub failures: u32,
    pub edges: u64,
    pub opens: u64,
    pub overs: u64,
    pub closed: u32,
}

// 1 for true, 0 for false.
pub fn flag(b: bool) -> u32
    ensures { result ≡ cond b 1 0 }
{
    b as u32
}

impl From<Result<MeshCounts, Refusal>> for CadAssembled {
    ghost from_gives = { λ t r. r ≡ cad_assembled (numbered t) };

    fn from(t: Result<MeshCounts, Refusal>) -> CadAssembled {
        match t {
            Ok(c) => CadAssembled {
                refusal: 0,
                vertices: c.vertices,
                indices: c.indices,
                parts: c.parts,
                ranges: c.ranges,
                failures: c.failures,
                edges: c.edges,
                opens: c.opens,
                overs: c.overs,
                closed: flag(c.closed),
            },
            Err(refusal) => CadAssembled {
                refusal: refusal.number(),
                ..CadAssembled::default()
            },
        }
    }
}
