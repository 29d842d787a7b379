/// What is counted in a run.
#[derive(Clone, Copy, Debug, PartialEq, Eq)]
pub struct Counts {
    pub objects: u64,
    pub pairs: u64,
    /// Pairs that are not kept, since their shells are parted.
    pub parted: u64,
    /// Kept pairs whose boxes touch, summed over all slots.
    pub touching: u64,
    pub roots: u64,
    /// How often a cell is halved.
    pub splits: u64,
    pub leaves: u64,
    /// Leaves of each kind.
    pub far: u64,
    pub near: u64,
    pub undecided: u64,
    pub encounters: u64,
    /// Encounters with a message.
    pub messages: u64,
}
