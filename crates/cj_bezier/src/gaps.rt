ghost use Rattle.std.specs.Prelude.{◌^◌, ◌-◌};
ghost use Rattle.std.specs.List.{All};
ghost use Rattle.cj_bezier.specs.Sizes.{HasEndsWithin};

use cj_interval::Span;

/// The squared distance of two hulls in Bernstein form, its seven coefficients as spans in nm².
#[derive(Clone, Copy, Debug, PartialEq, Eq)]
pub struct Gap {
    pub terms: [Span; 7],
    pub ghost within: { All (HasEndsWithin (2 ^ 126 - 1)) terms },
}
