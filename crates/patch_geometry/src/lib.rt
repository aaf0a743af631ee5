// Points and the box in f64, one rounding an operation, and the vertices of a patch as points.
#![tactic(auto)]

mod points;

ghost use Rattle.std.specs.Prelude.{◌≡◌};
ghost use Rattle.patch_geometry.specs.Geometry.{add_v, centre_of, diagonal, dot, is_empty, length_v, scale, size, sub_v};

pub use points::{point, vertex};
use std::ops::{Add, Mul, Sub};

// A point or a direction.
#[derive(Clone, Copy)]
pub struct Vec3 {
    pub x: f64,
    pub y: f64,
    pub z: f64,
}

impl Vec3 {
    // The point x, y, z.
    pub fn new(x: f64, y: f64, z: f64) -> Vec3
        ensures { result ≡ record { x = x; y = y; z = z } }
    {
        Vec3 { x, y, z }
    }

    // The dot product, its terms added left to right.
    pub fn dot(self, o: Vec3) -> f64
        ensures { result ≡ dot self o }
    {
        self.x * o.x + self.y * o.y + self.z * o.z
    }

    // The length: the root of the dot product with itself.
    pub fn length(self) -> f64
        ensures { result ≡ length_v self }
    {
        float_sqrt::sqrt_f64(self.dot(self))
    }
}

// The sum, by component.
impl Add for Vec3 {
    type Output = Vec3;

    ghost add_gives = { λ p q r. r ≡ add_v p q };

    fn add(self, o: Vec3) -> Vec3 {
        Vec3 {
            x: self.x + o.x,
            y: self.y + o.y,
            z: self.z + o.z,
        }
    }
}

// The difference, by component.
impl Sub for Vec3 {
    type Output = Vec3;

    ghost sub_gives = { λ p q r. r ≡ sub_v p q };

    fn sub(self, o: Vec3) -> Vec3 {
        Vec3 {
            x: self.x - o.x,
            y: self.y - o.y,
            z: self.z - o.z,
        }
    }
}

// s times the vector, by component.
impl Mul<f64> for Vec3 {
    type Output = Vec3;

    ghost mul_gives = { λ p s r. r ≡ scale p s };

    fn mul(self, s: f64) -> Vec3 {
        Vec3 {
            x: self.x * s,
            y: self.y * s,
            z: self.z * s,
        }
    }
}

// A box along the axes, from its minimum to its maximum corner.
#[derive(Clone, Copy)]
pub struct Aabb {
    pub min: Vec3,
    pub max: Vec3,
}

impl Aabb {
    // Whether the minimum is above the maximum on some axis.
    pub fn is_empty(self) -> bool
        ensures { result ≡ is_empty self }
    {
        let min = self.min;
        let max = self.max;
        (min.x > max.x) | (min.y > max.y) | (min.z > max.z)
    }

    // From the minimum to the maximum; zero for an empty box.
    pub fn size(self) -> Vec3
        ensures { result ≡ size self }
    {
        if self.is_empty() {
            return Vec3::new(0.0, 0.0, 0.0);
        }
        let min = self.min;
        let max = self.max;
        max - min
    }

    // The middle; zero for an empty box.
    pub fn centre(self) -> Vec3
        ensures { result ≡ centre_of self }
    {
        if self.is_empty() {
            return Vec3::new(0.0, 0.0, 0.0);
        }
        let min = self.min;
        let max = self.max;
        (min + max) * 0.5
    }

    // The length from the minimum to the maximum; 0 for an empty box.
    pub fn diagonal(self) -> f64
        ensures { result ≡ diagonal self }
    {
        self.size().length()
    }
}
