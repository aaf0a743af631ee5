// The bins nearest a peg, over placed bodies lent as one body with a place for each row.

ghost use Rattle.std.specs.Prelude.{◌≡◌, length};
ghost use Rattle.peg_definition.specs.Answers.{peg_answer};
ghost use Rattle.peg_definition.specs.Peg.{bins_after, lookup_of};
ghost use Rattle.peg.specs.Answer.{at};
ghost use Rattle.cad_answers.specs.Pegs.{cad_nearest_bins};

use cad_answers::CadNearestBins;

// The bins nearest a peg at x, y, z go into the front of a list, ascending, each once; a refusal leaves the list as it was.
#[unsafe(no_mangle)]
pub extern "C" fn cad_nearest_bins(
    rows: &[u32],
    positions: &[f32],
    normals: &[f32],
    indices: &[u32],
    places: &[i64],
    x: i64,
    y: i64,
    z: i64,
    bins: &mut [u32],
) -> CadNearestBins
    ensures value { result ≡ cad_nearest_bins (peg_answer (lookup_of rows.now positions.now normals.now indices.now
        places.now (at x y z) (length bins.old))) }
    ensures bins_after { bins.new ≡ bins_after (lookup_of rows.now positions.now normals.now indices.now
        places.now (at x y z) (length bins.old)) bins.old }
{
    peg::nearest_bins(rows, positions, normals, indices, places, x, y, z, bins).into()
}
