ghost use Rattle.std.specs.List.{All};
ghost use Rattle.cj_hermite.specs.Boxes.{IsBoxWithin};
ghost use Rattle.cj_bezier.specs.Sizes.{HULL_REACH};

use cj_hermite::Box3;

/// The Bezier control points of an interpolant over a run of ticks, as boxes in nm.
#[derive(Clone, Copy, Debug, PartialEq, Eq)]
pub struct Hull {
    pub points: [Box3; 4],
    pub ghost within: { All (IsBoxWithin HULL_REACH) points },
}
