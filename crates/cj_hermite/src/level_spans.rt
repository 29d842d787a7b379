//! What the levels of de Casteljau's algorithm leave of an axis.
ghost use Rattle.std.specs.Prelude.{◌≤ℤ◌};
ghost use Rattle.cj_interval.specs.Sizes.{IsWithin};
ghost use Rattle.cj_hermite.specs.Limits.{REACH};

/// The whole numbers from `lo` to `hi`, both included, within the reach of a piece.
#[derive(Clone, Copy, Debug, PartialEq, Eq)]
pub struct Bounds {
    pub lo: i64,
    pub hi: i64,
    pub ghost ordered: { lo ≤ℤ hi },
    pub ghost low: { IsWithin REACH lo },
    pub ghost high: { IsWithin REACH hi },
}

/// The three values of the first level of an axis at a tick, in nm.
#[derive(Clone, Copy, Debug, PartialEq, Eq)]
pub struct FirstLevel {
    pub a: Bounds,
    pub b: Bounds,
    pub c: Bounds,
}

/// The two values of the second level, at a tick of a first level.
#[derive(Clone, Copy, Debug, PartialEq, Eq)]
pub struct SecondLevel {
    pub a: Bounds,
    pub b: Bounds,
}
