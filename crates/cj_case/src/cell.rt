ghost use Rattle.std.specs.Prelude.{◌≤◌};

use crate::pair::Pair;
use cj_base::Tick;

/// Consecutive ticks of a pair in one of its roots.
#[derive(Clone, Copy, Debug, PartialEq, Eq)]
pub struct Cell {
    pub pair: Pair,
    /// The place of the root in the list of roots.
    pub root: u32,
    pub first: Tick,
    pub last: Tick,
    pub ghost some: { first.micros ≤ last.micros },
}

impl Default for Cell {
    /// A cell that only fills a place: the first tick of all, of the first two objects.
    fn default() -> Cell {
        Cell {
            pair: Pair { a: 0, b: 1 },
            root: 0,
            first: Tick::FIRST,
            last: Tick::FIRST,
        }
    }
}
