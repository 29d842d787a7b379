//! What the lines of a certificate say. Objects are numbered from 0.
ghost use Rattle.std.specs.Prelude.{◌≤◌};

use cj_base::Tick;
use cj_case::{AxisBox, Kind, Pair, Shell};

/// The size of an object in nm.
#[derive(Clone, Copy, Debug, PartialEq, Eq)]
pub struct SizeOfLine {
    pub object: u32,
    pub size: u64,
}

/// The shell of an object in the window, and none where it has no tick there.
#[derive(Clone, Copy, Debug, PartialEq, Eq)]
pub struct ShellLine {
    pub object: u32,
    pub shell: Option<Shell>,
}

/// A box round an object in each of the slots from the first to the last.
#[derive(Clone, Copy, Debug, PartialEq, Eq)]
pub struct BoxLine {
    pub object: u32,
    pub first: u32,
    pub last: u32,
    pub area: AxisBox,
}

/// What a pair is at each of the ticks from the first to the last.
#[derive(Clone, Copy, Debug, PartialEq, Eq)]
pub struct CellLine {
    pub pair: Pair,
    pub first: Tick,
    pub last: Tick,
    pub kind: Kind,
    pub ghost some: { first.micros ≤ last.micros },
}
