ghost use Rattle.std.specs.Prelude.{◌<◌};

/// Two objects, numbered from 0, the lower number first.
#[derive(Clone, Copy, Debug, PartialEq, Eq, PartialOrd, Ord, Hash)]
pub struct Pair {
    pub a: u32,
    pub b: u32,
    pub ghost ordered: { a < b },
}
