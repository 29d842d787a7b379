/// A place in nm, or a rate in nm/s.
#[derive(Clone, Copy, Debug, PartialEq, Eq)]
pub struct Vector {
    pub x: i128,
    pub y: i128,
    pub z: i128,
}
