// A patch asked about alone. The box is given as its six numbers, minimum first.

ghost use Rattle.std.specs.Prelude.{◌≡◌};
ghost use Rattle.patch_alone.specs.Alone.{volume_alone, farthest_alone, escapes_alone};
ghost use Rattle.cad_answers.specs.Answers.{box_of, cad_measured, cad_judged};

use cad_answers::{CadJudged, CadMeasured, box_of};

// The volume of a patch, reversed where flip says so; its stretches are read through their view.
#[unsafe(no_mangle)]
pub extern "C" fn cad_patch_volume<'a>(
    positions: &'a [f32],
    normals: &'a [f32],
    indices: &'a [u32],
    flip: bool,
) -> CadMeasured
    ensures { result ≡ cad_measured (volume_alone positions.now normals.now indices.now flip) }
{
    patch_view::volume_of(positions, normals, indices, flip).into()
}

// How far a patch's farthest vertex is from the box's centre.
#[unsafe(no_mangle)]
pub extern "C" fn cad_farthest(
    positions: &[f32],
    normals: &[f32],
    indices: &[u32],
    x0: f64,
    y0: f64,
    z0: f64,
    x1: f64,
    y1: f64,
    z1: f64,
) -> CadMeasured
    ensures { result ≡ cad_measured (farthest_alone positions.now normals.now indices.now (box_of x0 y0 z0 x1 y1 z1)) }
{
    let reference = box_of(x0, y0, z0, x1, y1, z1);
    patch_alone::farthest_alone(positions, normals, indices, reference).into()
}

// Whether a patch reaches beyond the box's diagonal.
#[unsafe(no_mangle)]
pub extern "C" fn cad_escapes_body(
    positions: &[f32],
    normals: &[f32],
    indices: &[u32],
    x0: f64,
    y0: f64,
    z0: f64,
    x1: f64,
    y1: f64,
    z1: f64,
) -> CadJudged
    ensures { result ≡ cad_judged (escapes_alone positions.now normals.now indices.now (box_of x0 y0 z0 x1 y1 z1)) }
{
    let reference = box_of(x0, y0, z0, x1, y1, z1);
    patch_alone::escapes_alone(positions, normals, indices, reference).into()
}
