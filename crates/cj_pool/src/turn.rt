use cj_ledger::Why;

/// What a turn of a hand came to.
#[derive(Clone, Copy, Debug, PartialEq, Eq)]
pub enum Turn {
    /// A cell became a leaf.
    Closed,
    /// A cell was halved: one half is kept, and the other was pushed.
    Split,
    /// A cell was halved, and both halves are kept: cells enough are left to others in the hand's deque.
    Kept,
    /// No cell was found, and so many are live or are leaves that other hands have not counted yet.
    Idle { live: u64 },
    /// No cell is live.
    Done,
    /// The hands are to stop.
    Halted { why: Why },
}
