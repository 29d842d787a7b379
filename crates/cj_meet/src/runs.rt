ghost use Rattle.std.specs.Prelude.{◌≡◌, ◌⊎◌, ◌<◌, ◌≤◌};

use cj_base::Tick;
use cj_case::Leaf;

/// A run of one tick or more.
#[derive(Clone, Copy, Debug, PartialEq, Eq)]
pub struct Waiting {
    pub first: Tick,
    pub last: Tick,
    pub ghost some: { first.micros ≤ last.micros },
}

/// The ticks of a leaf.
pub fn whole_of(leaf: &Leaf) -> Waiting
    ensures first { result.first ≡ leaf.now.cell.first }
    ensures last { result.last ≡ leaf.now.cell.last }
{
    Waiting {
        first: leaf.cell.first,
        last: leaf.cell.last,
    }
}

impl Waiting {
    ghost use Rattle.cj_meet.specs.Searches.{AreRunHalves};

    /// The halves of a run of two ticks or more, the later one first where that is asked for.
    pub fn halves(self, later_first: bool) -> (Waiting, Waiting)
        requires { self.first.micros < self.last.micros }
        ensures { AreRunHalves self result.0 result.1 ⊎ AreRunHalves self result.1 result.0 }
    {
        let middle = (self.first.micros + self.last.micros) / 2;
        let early = Waiting {
            first: self.first,
            last: Tick { micros: middle },
        };
        let late = Waiting {
            first: Tick { micros: middle + 1 },
            last: self.last,
        };
        if later_first {
            (late, early)
        } else {
            (early, late)
        }
    }
}
