ghost use Rattle.std.specs.Prelude.{◌≡◌, ◌+◌, ◌≤◌};

/// How many roots there are, and how many leaves of them, in all and of each kind.
#[derive(Clone, Copy, Debug, PartialEq, Eq)]
pub struct LeafCounts {
    pub roots: u64,
    pub leaves: u64,
    pub far: u64,
    pub near: u64,
    pub undecided: u64,
    pub ghost some: { roots ≤ leaves },
    pub ghost all: { far + near + undecided ≡ leaves },
}
