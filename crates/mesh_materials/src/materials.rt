// The material of a face, and check 42.

ghost use Rattle.std.specs.Prelude.{◌≡◌, get_or, ltb};
ghost use Rattle.lists.specs.Lists.{any};
ghost use Rattle.mesh_materials.specs.Materials.{bad_materials, material_of};
ghost use Rattle.mesh_materials.specs.Small.{SmallMaterials};

use crate::{FaceId, MaterialId};

// An entry is at most one above the highest material number, 2^32 - 1.
const MOST_ENTRY: u64 = 4294967296;

// Whether an entry is above 2^32.
fn any_above(materials: &[u64]) -> bool
    ensures { result ≡ any (λ m. ltb 4294967296 m) materials.now }
{
    materials.iter().any(|entry| *entry > MOST_ENTRY)
}

// 42: whether an entry or the default is above 2^32.
pub fn bad_materials(materials: &[u64], default: u64) -> bool
    ensures { result ≡ bad_materials materials.now default }
{
    default > MOST_ENTRY || any_above(materials)
}

// The entry of a face, 0 if it is missing.
fn entry_at(materials: &[u64], face: FaceId) -> u64
    ensures { result ≡ get_or materials.now face.0 0 }
{
    let k = face.0 as usize;
    if k < materials.len() {
        return materials[k];
    }
    0
}

// The material of a face: its own entry's, else the default's, else 0.
pub fn material_of(materials: &[u64], default: u64, face: FaceId) -> MaterialId
    requires { SmallMaterials materials.now default }
    ensures { result.0 ≡ material_of materials.now default face.0 }
{
    let own = entry_at(materials, face);
    if own > 0 {
        return MaterialId((own - 1) as u32);
    }
    if default > 0 {
        return MaterialId((default - 1) as u32);
    }
    MaterialId(0)
}
