//! Vectors of whole numbers.
ghost use Rattle.std.specs.Prelude.{◌≡◌, ◌+◌, ◌*◌, ◌^◌, ◌<◌, ◌≤◌, ◌+ℤ◌, ◌-ℤ◌, ◌*ℤ◌, unsigned_abs};
ghost use Rattle.cj_interval.specs.Rounding.{floor_div};
ghost use Rattle.cj_interval.specs.Sizes.{IsWithin};
ghost use Rattle.cj_rtn.specs.Vectors as spec;
ghost use Rattle.cj_rtn.specs.Vectors.{IsEachWithin};

use crate::vector::Vector;
use cj_interval::isqrt_down;

fn product(a: i128, b: i128) -> i128
    requires first { IsWithin (2 ^ 61) a }
    requires second { IsWithin (2 ^ 61) b }
    ensures value { result ≡ a *ℤ b }
    ensures within { IsWithin (2 ^ 122) result }
{
    a * b
}

fn difference(a: i128, b: i128) -> i128
    requires first { IsWithin (2 ^ 122) a }
    requires second { IsWithin (2 ^ 122) b }
    ensures value { result ≡ a -ℤ b }
    ensures within { IsWithin (2 ^ 123) result }
{
    a - b
}

/// The product of the first two less that of the others.
fn minor(a: i128, b: i128, c: i128, d: i128) -> i128
    requires first { IsWithin (2 ^ 61) a }
    requires second { IsWithin (2 ^ 61) b }
    requires third { IsWithin (2 ^ 61) c }
    requires fourth { IsWithin (2 ^ 61) d }
    ensures value { result ≡ a *ℤ b -ℤ c *ℤ d }
    ensures within { IsWithin (2 ^ 123) result }
{
    difference(product(a, b), product(c, d))
}

fn sum(a: i128, b: i128, c: i128) -> i128
    requires first { IsWithin (2 ^ 122) a }
    requires second { IsWithin (2 ^ 122) b }
    requires third { IsWithin (2 ^ 122) c }
    ensures value { result ≡ a +ℤ b +ℤ c }
    ensures within { IsWithin (2 ^ 124) result }
{
    a + b + c
}

/// `a / by`, rounded down.
fn quotient(a: i128, by: u64) -> i128
    requires some { 0 < by }
    requires within { IsWithin (2 ^ 126) a }
    ensures { result ≡ floor_div a by }
{
    a.div_euclid(i128::from(by))
}

/// The scalar product.
#[tactic(auto, unfolding(crate::specs::Vectors::dot))]
pub(crate) fn dot(a: &Vector, b: &Vector) -> i128
    requires first { IsEachWithin (2 ^ 61) a.now }
    requires second { IsEachWithin (2 ^ 61) b.now }
    ensures value { result ≡ spec.dot a.now b.now }
    ensures within { IsWithin (2 ^ 124) result }
{
    sum(product(a.x, b.x), product(a.y, b.y), product(a.z, b.z))
}

/// The vector product.
#[tactic(auto, unfolding(crate::specs::Vectors::cross))]
pub(crate) fn cross(a: &Vector, b: &Vector) -> Vector
    requires first { IsEachWithin (2 ^ 61) a.now }
    requires second { IsEachWithin (2 ^ 61) b.now }
    ensures value { result ≡ spec.cross a.now b.now }
    ensures within { IsEachWithin (2 ^ 123) result }
{
    Vector {
        x: minor(a.y, b.z, a.z, b.y),
        y: minor(a.z, b.x, a.x, b.z),
        z: minor(a.x, b.y, a.y, b.x),
    }
}

/// The first less the second.
#[tactic(auto, unfolding(crate::specs::Vectors::less))]
pub(crate) fn less(a: &Vector, b: &Vector) -> Vector
    requires first { IsEachWithin (2 ^ 61) a.now }
    requires second { IsEachWithin (2 ^ 61) b.now }
    ensures { result ≡ spec.less a.now b.now }
{
    Vector {
        x: difference(a.x, b.x),
        y: difference(a.y, b.y),
        z: difference(a.z, b.z),
    }
}

/// Each component divided by `by` and rounded down.
#[tactic(auto, unfolding(crate::specs::Vectors::divided))]
pub(crate) fn divided(a: &Vector, by: u64) -> Vector
    requires some { 0 < by }
    requires within { IsEachWithin (2 ^ 126) a.now }
    ensures { result ≡ spec.divided a.now by }
{
    Vector {
        x: quotient(a.x, by),
        y: quotient(a.y, by),
        z: quotient(a.z, by),
    }
}

/// The square of the length.
#[tactic(auto, unfolding(crate::specs::Vectors::square))]
pub(crate) fn square(a: &Vector) -> u128
    requires { IsEachWithin (2 ^ 61) a.now }
    ensures value { result ≡ spec.square a.now }
    ensures within { result ≤ 2 ^ 124 }
{
    dot(a, a).unsigned_abs()
}

/// The length rounded down.
#[tactic(auto, unfolding(crate::specs::Vectors::size))]
fn size(a: &Vector) -> u64
    requires { IsEachWithin (2 ^ 61) a.now }
    ensures { result ≡ spec.size a.now }
{
    isqrt_down(square(a))
}

/// How far `x` reaches along `b`, rounded down.
#[tactic(auto, unfolding(crate::specs::Vectors::along))]
pub(crate) fn along(x: &Vector, b: &Vector) -> i64
    requires some { 0 < spec.size b.now }
    requires near { IsEachWithin (2 ^ 60) x.now }
    requires axis { IsEachWithin (2 ^ 61) b.now }
    ensures { result ≡ spec.along x.now b.now }
{
    quotient(dot(x, b), size(b)) as i64
}
