// The material of a face, and check 42.
#![tactic(auto)]

mod materials;

pub use materials::{bad_materials, material_of};

// A face number.
#[derive(Clone, Copy)]
pub struct FaceId(pub u32);

// A bin number.
#[derive(Clone, Copy)]
pub struct BinId(pub u32);

// A material number.
#[derive(Clone, Copy)]
pub struct MaterialId(pub u32);
