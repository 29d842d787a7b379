ghost use Rattle.std.specs.Prelude.{◌≤◌};

use cj_case::AxisBox;

/// A box in nm round an object in each of the slots from the first to the last. Objects are numbered from 0.
#[derive(Clone, Copy, Debug, PartialEq, Eq)]
pub struct Block {
    pub object: u32,
    pub first: u32,
    pub last: u32,
    pub area: AxisBox,
    pub ghost some: { first ≤ last },
}
