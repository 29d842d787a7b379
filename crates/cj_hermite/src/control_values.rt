/// The four Bezier control values of a piece on each axis, in 1/3,000,000 nm.
#[derive(Clone, Copy, Debug, PartialEq, Eq)]
pub struct Controls {
    pub x: [i128; 4],
    pub y: [i128; 4],
    pub z: [i128; 4],
}
