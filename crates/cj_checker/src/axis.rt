ghost use Rattle.std.specs.Prelude.{◌≡◌};
ghost use Rattle.cj_checker.specs.Sweeps.{across as the_other};

/// Along what two objects can be apart: an axis of space, or the distance from the origin.
#[derive(Clone, Copy, PartialEq, Eq)]
pub(crate) enum Axis {
    X,
    Y,
    Z,
    Radius,
}

impl Axis {
    /// The axis across which the stripes of a sweep along this one lie.
    pub(crate) fn across(self) -> Axis
        ensures { result ≡ the_other self }
    {
        match self {
            Axis::X => Axis::Y,
            Axis::Y => Axis::Z,
            Axis::Z => Axis::X,
            Axis::Radius => Axis::Z,
        }
    }
}
