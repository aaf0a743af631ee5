// The sizes that a body may have.

ghost use Rattle.std.specs.Prelude.{◌≡◌};
ghost use Rattle.body_refusals.specs.TableChecks.{too_large};

// The largest outcome.
pub const MOST_OUTCOME: u32 = 255;

// The largest bin number.
pub const MOST_BIN: u32 = 65535;

// The most rows.
pub const MOST_ROWS: usize = 4096;

// The most vertices.
pub const MOST_VERTICES: usize = 262144;

// The most indices.
pub const MOST_INDICES: usize = 786432;

// 13: whether there are too many vertices or indices.
pub fn too_many(vertices: usize, indices: usize) -> bool
    ensures { result ≡ too_large vertices indices }
{
    if vertices > MOST_VERTICES {
        return true;
    }
    indices > MOST_INDICES
}
