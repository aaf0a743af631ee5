// The sheet's bits as floats, in one pass before the body is turned; a NaN's bits make the NaN.
#![tactic(auto)]

ghost use Rattle.std.specs.Prelude.{◌≡◌, ◌++◌, ◌∷◌, [], map, length, take, drop};
ghost use Rattle.float_steps.specs.Floats.{f32, f64};
ghost use Rattle.sheet_meaning.specs.Meaning.{box_of};

use float_steps::{f32_of_bits, f64_of_bits};
use patch_geometry::{Aabb, Vec3};
use sheet_reader_state::Reader;

// The floats of bits, as many as there is room for.
pub fn floats_of(bits: &[u32], out: &mut [f32])
    ensures { out.new ≡ take (length out.old) (map f32 bits.now)
        ++ drop (length bits.now) out.old }
{
    for (i, b) in bits.iter().enumerate() {
        if out.len() <= i {
            return;
        }
        out[i] = f32_of_bits(*b);
    }
}

// The point with these bits.
fn point_of(x: u64, y: u64, z: u64) -> Vec3
    ensures { result ≡ record { x = f64 x; y = f64 y; z = f64 z } }
{
    Vec3::new(f64_of_bits(x), f64_of_bits(y), f64_of_bits(z))
}

// The box that was read.
pub fn box_of(r: Reader) -> Aabb
    ensures { result ≡ box_of (r.minx ∷ r.miny ∷ r.minz ∷ r.maxx ∷ r.maxy ∷ r.maxz ∷ []) }
{
    let min = point_of(r.minx, r.miny, r.minz);
    let max = point_of(r.maxx, r.maxy, r.maxz);
    Aabb { min: min, max: max }
}

// The sag that was read.
pub fn sag_of(r: Reader) -> f64
    ensures { result ≡ f64 r.sag }
{
    f64_of_bits(r.sag)
}
