ghost use Rattle.std.specs.Prelude.{◌≡◌};
ghost use Rattle.cj_gen.specs.Draws.{next_state};
ghost use Rattle.cj_gen.specs.Orbits.{IsOrbit, orbit_from};

use crate::draws::Draws;
use crate::plane::Point;
use crate::tilt::Tilt;

/// A circular orbit: its place at the first node before it is tilted, and the tilt of its plane.
#[derive(Clone, Copy, Debug, PartialEq, Eq)]
pub struct Orbit {
    pub first: Point,
    pub tilt: Tilt,
}

impl Orbit {
    /// The orbit that the next three draws give.
    pub(crate) fn drawn(draws: &mut Draws) -> Self
        ensures value { result ≡ orbit_from draws.old.state }
        ensures kept { IsOrbit result }
        ensures state { draws.new.state ≡ next_state (next_state (next_state draws.old.state)) }
    {
        let radius = 6_900_000 + 1_000 * (draws.draw() % 41);
        let turns = draws.draw() % 97;
        let tilt = Tilt::of(draws.draw() % 8);
        Orbit {
            first: Point::on_axis(radius as u32).turned_often(turns),
            tilt,
        }
    }
}
