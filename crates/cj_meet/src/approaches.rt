//! Ticks with bounds on the squared distance there.
ghost use Rattle.std.specs.Prelude.{◌≡◌, ◌≤◌, ◌^◌};

use cj_base::Tick;

/// A tick, and a bound on the squared distance there in nm².
#[derive(Clone, Copy, Debug, PartialEq, Eq)]
pub struct Approach {
    pub tick: Tick,
    pub square: u128,
    pub ghost within: { square ≤ 2 ^ 126 },
}

impl Approach {
    ghost use Rattle.cj_interval.specs.Sizes.{IsWithin};
    ghost use Rattle.cj_bezier.specs.Squares.{from_zero};
    ghost use Rattle.cj_meet.specs.Closest.{nearer};
    ghost use Rattle.cj_meet.specs.Searches.{plain_approach};

    /// The bound that an upper end of the squared distance at a tick comes to: 0 where it is negative.
    pub fn new(tick: Tick, end: i128) -> Approach
        requires { IsWithin (2 ^ 126) end }
        ensures tick { result.tick ≡ tick }
        ensures square { result.square ≡ from_zero end }
    {
        Approach {
            tick,
            square: end.max(0).unsigned_abs(),
        }
    }

    /// The one with the lesser bound, or the earlier of equals.
    pub fn nearer(self, other: Approach) -> Approach
        ensures { plain_approach result ≡ nearer (plain_approach self) (plain_approach other) }
    {
        if other.square < self.square
            || (other.square == self.square && other.tick.micros < self.tick.micros)
        {
            other
        } else {
            self
        }
    }
}
