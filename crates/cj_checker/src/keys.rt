ghost use Rattle.std.specs.Prelude.{◌≡◌, ◌<◌, ◌≤◌};
ghost use Rattle.cj_base.specs.Bounds.{MOST_OBJECTS};

use cj_case::Pair;

/// A candidate with its slot, in eight bytes. The numbers of objects fit 16 bits.
#[derive(Clone, Copy, PartialEq, Eq, PartialOrd, Ord)]
pub(crate) struct Key {
    pub a: u16,
    pub b: u16,
    pub slot: u32,
}

impl Key {
    pub(crate) fn new(pair: Pair, slot: u32) -> Self
        requires { pair.b ≤ MOST_OBJECTS }
        ensures a { result.a ≡ pair.a }
        ensures b { result.b ≡ pair.b }
        ensures slot { result.slot ≡ slot }
    {
        Key {
            a: pair.a as u16,
            b: pair.b as u16,
            slot,
        }
    }

    pub(crate) fn pair(self) -> Pair
        requires { self.a < self.b }
        ensures a { result.a ≡ self.a }
        ensures b { result.b ≡ self.b }
    {
        Pair {
            a: u32::from(self.a),
            b: u32::from(self.b),
        }
    }
}
