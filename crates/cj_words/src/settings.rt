ghost use Rattle.std.specs.Prelude.{◌≤◌, ◌≡◌, Option};
ghost use Rattle.cj_base.specs.Limits.{plain_limits};
ghost use Rattle.cj_words.specs.Limits.{limits_of};
ghost use Rattle.cj_base.specs.declared.tick.Tick.{Tick};

use cj_base::{Limits, Text, Tick};

/// A word of the command line.
pub type Word = Text;

/// What a command line asks for of the files of a directory. The suffix and the names of the files of sizes and of primaries are lent by
/// the words.
#[derive(Clone, Copy, Debug, PartialEq, Eq)]
pub struct Settings<'w> {
    /// The greatest miss distance that is reported, in metres, from 1 to 1,000,000.
    pub threshold: u64,
    /// The first tick of the window, where it is given.
    pub from: Option<Tick>,
    /// The last tick of the window, where it is given; not before the first.
    pub to: Option<Tick>,
    /// What the names of the files that are taken end with: 1 to 20 bytes from 33 to 126, none of them `/`.
    pub suffix: &'w [u8],
    /// Whether a file that does not declare the cubic is taken as if it did.
    pub as_hermite3: bool,
    /// The name of the file of sizes, where it is given: 1 to 200 such bytes. Without it no object has a size.
    pub sizes: Option<&'w [u8]>,
    /// The name of the file of primaries, where it is given: 1 to 200 such bytes. Without it all pairs are looked at.
    pub primaries: Option<&'w [u8]>,
    /// Whether the report tells which ticks of the window each object covers.
    pub coverage: bool,
    /// Whether an object that does not cover the window is refused.
    pub must_cover: bool,
    /// Whether a run may take a whole sky.
    pub large: bool,
    /// How much it may take.
    pub limits: Limits,
    pub ghost some: { 1 ≤ threshold },
    pub ghost most: { threshold ≤ 1_000_000 },
    pub ghost limited: { plain_limits limits ≡ limits_of large },
}
