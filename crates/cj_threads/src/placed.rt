ghost use Rattle.std.specs.Prelude.{◌≡◌};
ghost use Rattle.cj_base.specs.declared.tick.Tick.{Tick};
ghost use Rattle.cj_case.specs.declared.pair.Pair.{Pair};

use cj_base::Tick;
use cj_case::{Cell, Leaf, Pair};

/// What lists keep in order of pair and first tick.
pub trait Placed {
    ghost place_of: { Self → Pair × Tick };

    /// Where it belongs.
    fn place(&self) -> (Pair, Tick)
        ensures { result ≡ place_of self.now };
}

impl Placed for Cell {
    ghost place_of = { λ cell. (cell.pair, cell.first) };

    fn place(&self) -> (Pair, Tick) {
        (self.pair, self.first)
    }
}

impl Placed for Leaf {
    ghost place_of = { λ leaf. (leaf.cell.pair, leaf.cell.first) };

    fn place(&self) -> (Pair, Tick) {
        self.cell.place()
    }
}
