ghost use Rattle.std.specs.Prelude.{◌≡◌, ◌≤◌, pos, ◌+ℤ◌, ◌-ℤ◌, ◌*ℤ◌, neg_ℤ};
ghost use Rattle.cj_interval.specs.Sizes.{IsWithin};
ghost use Rattle.cj_gen.specs.Orbits as spec;
ghost use Rattle.cj_gen.specs.Orbits.{IsInSquare, IsNear};

use crate::rounding::quotient;

/// A place in the plane of the first two axes in metres, or a rate there in millimetres a second.
#[derive(Clone, Copy, Debug, PartialEq, Eq)]
pub struct Point {
    pub x: i64,
    pub y: i64,
}

impl Point {
    /// A place on the first axis.
    pub(crate) fn on_axis(x: u32) -> Self
        ensures { result ≡ spec.on_axis x }
    {
        Point {
            x: i64::from(x),
            y: 0,
        }
    }

    /// One turn on, some 3.7 degrees.
    pub(crate) fn turned(self) -> Self
        requires { IsInSquare 10000000 self }
        ensures { result ≡ spec.turned self }
    {
        Point {
            x: quotient(across(self.x, self.y), 481),
            y: quotient(along(self.x, self.y), 481),
        }
    }

    /// So many turns on.
    pub(crate) fn turned_often(self, turns: u64) -> Self
        requires near { IsNear 7000000 self }
        requires few { turns ≤ 1000 }
        ensures { result ≡ spec.after_turns turns self }
    {
        let mut point = self;
        for _turn in 0..turns {
            point = point.turned();
        }
        point
    }

    /// The rate at a place on a circular orbit.
    pub(crate) fn rate(self) -> Self
        requires { IsInSquare 10000000 self }
        ensures value { result ≡ spec.rate_at self }
        ensures within { IsInSquare 20000000 result }
    {
        Point {
            x: quotient(backward(self.y), 10_000),
            y: quotient(forward(self.x), 10_000),
        }
    }
}

/// 481 times the first coordinate after one turn.
fn across(x: i64, y: i64) -> i64
    requires first { IsWithin 10000000 x }
    requires second { IsWithin 10000000 y }
    ensures value { result ≡ pos 480 *ℤ x -ℤ pos 31 *ℤ y }
    ensures within { IsWithin 10000000000 result }
{
    480 * x - 31 * y
}

/// 481 times the second.
fn along(x: i64, y: i64) -> i64
    requires first { IsWithin 10000000 x }
    requires second { IsWithin 10000000 y }
    ensures value { result ≡ pos 31 *ℤ x +ℤ pos 480 *ℤ y }
    ensures within { IsWithin 10000000000 result }
{
    31 * x + 480 * y
}

/// The rate on the second axis, in 1/10,000 mm/s.
fn forward(x: i64) -> i64
    requires { IsWithin 10000000 x }
    ensures value { result ≡ pos 10749 *ℤ x }
    ensures within { IsWithin 1000000000000 result }
{
    10_749 * x
}

/// The rate on the first.
fn backward(y: i64) -> i64
    requires { IsWithin 10000000 y }
    ensures value { result ≡ neg_ℤ (pos 10749 *ℤ y) }
    ensures within { IsWithin 1000000000000 result }
{
    -(10_749 * y)
}
