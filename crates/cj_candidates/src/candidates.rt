use cj_case::{Cell, Measured};

/// What is found of a problem before any cell is halved.
#[derive(Debug, Drop)]
pub struct Candidates {
    /// The shells and boxes of its objects.
    pub measured: Measured,
    /// How many pairs are kept: their shells are not parted.
    pub kept: u64,
    /// The roots of the candidates of each slot, in order of pair and time, each with its place as its number.
    pub roots: Vec<Cell>,
    /// How many candidates there are, summed over all slots.
    pub touching: u64,
}
