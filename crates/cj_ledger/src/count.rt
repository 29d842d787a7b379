//! What a share knows. Contracts see it, and no value of it is ever made.

/// How a ledger was opened: with how many roots, and for how many shares.
#[derive(Clone, Copy)]
pub struct Opening {
    pub roots: u64,
    pub shares: u64,
}

/// How often a share loaded a word or was answered its value, and the last such value.
pub struct Loaded {
    pub times: u64,
    pub last: u64,
}

/// What a share has counted.
pub struct Count {
    /// A share has one part of its ledger. Who has all parts knows the words.
    pub parts: u64,
    pub opening: Opening,
    pub roots: u64,
    /// The first steps of its splits, which count live cells.
    pub firsts: u64,
    /// The second steps of its splits, which count leaves.
    pub seconds: u64,
    pub closes: u64,
    pub live: Loaded,
    pub leaves: Loaded,
    pub halts: Loaded,
    /// How often it set the bit of `Why::Cells`.
    pub cells: u64,
    /// How often it set the bit of `Why::Memory`.
    pub memory: u64,
}
