// A patch read through a view of its three stretches: positions, normals and indices.
#![tactic(auto)]

ghost use Rattle.std.specs.Prelude.{◌≡◌, get_or};
ghost use Rattle.refusals.specs.Numbers.{numbered};
ghost use Rattle.patch_alone.specs.Answers.{answer_of};
ghost use Rattle.patch_alone.specs.Alone.{volume_alone};
ghost use Rattle.patch_view.specs.Views.{corner_of, view_of, volume_of};

use refusals::Refusal;

// A patch's stretches of a body's slices; three coordinates a vertex, indices from 0 within the patch.
#[derive(Clone, Copy)]
pub struct PatchView<'a> {
    pub positions: &'a [f32],
    pub normals: &'a [f32],
    pub indices: &'a [u32],
}

// The view of three stretches.
pub fn view_of<'a>(positions: &'a [f32], normals: &'a [f32], indices: &'a [u32]) -> PatchView<'a>
    ensures { result ≡ view_of positions.entry normals.entry indices.entry }
{
    PatchView {
        positions,
        normals,
        indices,
    }
}

// The patch's indices: the corners of its triangles, three each.
pub fn corners<'a>(v: PatchView<'a>) -> &'a [u32]
    ensures { result ≡ v.entry.indices }
{
    v.indices
}

// Index i, or 0 past the end.
fn index_at(indices: &[u32], i: usize) -> u32
    ensures { result ≡ get_or indices.now i 0 }
{
    if i < indices.len() {
        return indices[i];
    }
    0
}

// Corner i of the patch's triangles, or 0 past the end.
pub fn corner<'a>(v: PatchView<'a>, i: usize) -> u32
    ensures { result ≡ corner_of v.entry i }
{
    index_at(v.indices, i)
}

// The volume of the patch alone, its stretches of one lifetime.
fn volume_alone<'a>(
    positions: &'a [f32],
    normals: &'a [f32],
    indices: &'a [u32],
    flip: bool,
) -> Result<f64, Refusal>
    ensures { numbered result ≡ answer_of (volume_alone positions.now normals.now indices.now flip) }
{
    patch_alone::patch_volume_alone(positions, normals, indices, flip)
}

// The volume of the patch alone, its triangles reversed if `flip`; or why it is refused.
pub fn volume<'a>(v: PatchView<'a>, flip: bool) -> Result<f64, Refusal>
    ensures { numbered result ≡ volume_of v.entry flip }
{
    volume_alone(v.positions, v.normals, v.indices, flip)
}

// The same of a patch's three stretches: they are read through their view.
pub fn volume_of<'a>(
    positions: &'a [f32],
    normals: &'a [f32],
    indices: &'a [u32],
    flip: bool,
) -> Result<f64, Refusal>
    ensures { numbered result ≡ answer_of (volume_alone positions.now normals.now indices.now flip) }
{
    volume(view_of(positions, normals, indices), flip)
}
