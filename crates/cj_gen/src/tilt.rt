ghost use Rattle.std.specs.Prelude.{◌≡◌, ◌<◌, ◌*ℤ◌};
ghost use Rattle.cj_interval.specs.Sizes.{IsWithin};
ghost use Rattle.cj_gen.specs.Orbits as spec;

use crate::plane::Point;
use crate::rounding::quotient;

/// A place in metres, or a rate in millimetres a second.
#[derive(Clone, Copy, Debug, PartialEq, Eq)]
pub struct Vector {
    pub x: i64,
    pub y: i64,
    pub z: i64,
}

/// How the plane of an orbit is tilted about the first axis: by a right triangle with the legs `p` and `q` and the longest
/// side `r`.
#[derive(Clone, Copy, Debug, PartialEq, Eq)]
pub struct Tilt {
    pub p: i8,
    pub q: i8,
    pub r: u8,
}

impl Tilt {
    /// The tilt with this number, below 8.
    pub(crate) fn of(number: u64) -> Self
        requires { number < 8 }
        ensures value { result ≡ spec.tilt_of number }
        ensures some { 0 < result.r }
    {
        let triangle = Tilt::triangle(number % 4);
        if number < 4 {
            triangle
        } else {
            Tilt {
                p: triangle.p,
                q: -triangle.q,
                r: triangle.r,
            }
        }
    }

    fn triangle(number: u64) -> Self
        ensures value { result ≡ spec.triangle number }
        ensures short { IsWithin 24 result.q }
        ensures some { 0 < result.r }
    {
        match number {
            0 => Tilt { p: 3, q: 4, r: 5 },
            1 => Tilt { p: 5, q: 12, r: 13 },
            2 => Tilt { p: 8, q: 15, r: 17 },
            _ => Tilt { p: 7, q: 24, r: 25 },
        }
    }

    /// A vector of the plane of the first two axes in the tilted plane.
    pub(crate) fn lifted(self, vector: Point) -> Vector
        requires some { 0 < self.r }
        requires within { IsWithin 100000000 vector.y }
        ensures { result ≡ spec.lifted self vector }
    {
        let r = u16::from(self.r);
        Vector {
            x: vector.x,
            y: quotient(times(self.p, vector.y), r),
            z: quotient(times(self.q, vector.y), r),
        }
    }
}

/// A leg times a coordinate.
fn times(leg: i8, y: i64) -> i64
    requires { IsWithin 100000000 y }
    ensures value { result ≡ leg *ℤ y }
    ensures within { IsWithin 12800000000 result }
{
    i64::from(leg) * y
}
