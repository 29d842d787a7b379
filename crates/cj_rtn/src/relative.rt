/// What a vector is along the radial, the transverse and the normal axis of an object, in nm or in nm/s.
#[derive(Clone, Copy, Debug, PartialEq, Eq)]
pub struct AxisValues {
    pub r: i64,
    pub t: i64,
    pub n: i64,
}

/// The place in nm and the rate in nm/s of an object relative to another, along the axes of the other. The rate is the difference of
/// the two rates, and not how fast the values of the place change.
#[derive(Clone, Copy, Debug, PartialEq, Eq)]
pub struct Rtn {
    pub place: AxisValues,
    pub rate: AxisValues,
}
