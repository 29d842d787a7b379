ghost use Rattle.std.specs.Prelude.{◌≤◌, ◌<◌};

use crate::pair::Pair;
use cj_base::Tick;

/// What an encounter is known to be.
#[derive(Clone, Copy, Debug, PartialEq, Eq)]
pub enum Mark {
    /// Within the threshold at some tick.
    Near,
    /// Within one millimetre of the threshold throughout.
    Undecided,
}

/// A run of consecutive ticks of a pair that are near or undecided, as long as it goes on.
#[derive(Clone, Copy, Debug, PartialEq, Eq)]
pub struct Encounter {
    pub pair: Pair,
    pub first: Tick,
    pub last: Tick,
    pub mark: Mark,
    /// The place of its first leaf.
    pub leaf: u32,
    /// The place behind its last leaf.
    pub past: u32,
    pub ghost some: { first.micros ≤ last.micros },
    pub ghost leaves: { leaf < past },
}

/// The time of closest approach of an encounter, and an upper bound of the distance there in nm.
#[derive(Clone, Copy, Debug, PartialEq, Eq)]
pub struct Closest {
    pub tick: Tick,
    pub high: u64,
}
