// Check 41: room for the mesh and its tables.

ghost use Rattle.std.specs.Prelude.{◌≡◌, length};
ghost use Rattle.mesh_room.specs.Room.{RoomAsked, short_by};

use mesh_acceptance::FAILURE_WIDTH;
use mesh_layout::{PART_WIDTH, RANGE_WIDTH};

// 41: whether a slice is shorter than the accepted rows need, or a table has fewer than m rows.
#[tactic(auto, unfolding(crate::specs::Room::short_by))]
pub fn too_short(
    vertices: usize,
    indices: usize,
    m: usize,
    mesh_positions: &[f32],
    mesh_normals: &[f32],
    mesh_indices: &[u32],
    parts: &[u32],
    ranges: &[u32],
    failures: &[u64],
) -> bool
    requires { RoomAsked vertices m }
    ensures { result ≡ short_by vertices indices m (length mesh_positions.now) (length mesh_normals.now)
        (length mesh_indices.now)
        (length parts.now) (length ranges.now) (length failures.now) }
{
    mesh_positions.len() < 3 * vertices
        || mesh_normals.len() < 3 * vertices
        || mesh_indices.len() < indices
        || parts.len() < PART_WIDTH * m
        || ranges.len() < RANGE_WIDTH * m
        || failures.len() < FAILURE_WIDTH * m
}
