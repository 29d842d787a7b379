//! Two pieces made ready.
ghost use Rattle.std.specs.Prelude.{◌≡◌, ◌≤◌, IsTrue};

use cj_base::Tick;
use cj_case::{Cell, Pair};
use cj_hermite::Ready;

/// The pieces of a pair's objects over the ticks from `first` to `last`, made ready.
#[derive(Clone, Copy)]
pub(crate) struct ReadyPair {
    pub pair: Pair,
    pub first: Tick,
    pub last: Tick,
    pub a: Ready,
    pub b: Ready,
}

impl ReadyPair {
    /// Whether these are the pieces of a cell.
    pub(crate) fn are_of(&self, cell: Cell) -> bool
        ensures first_object { IsTrue result → cell.pair.a ≡ self.now.pair.a }
        ensures second_object { IsTrue result → cell.pair.b ≡ self.now.pair.b }
        ensures from { IsTrue result → self.now.first.micros ≤ cell.first.micros }
        ensures to { IsTrue result → cell.last.micros ≤ self.now.last.micros }
    {
        self.first.micros <= cell.first.micros
            && cell.last.micros <= self.last.micros
            && cell.pair == self.pair
    }
}
