use cj_case::Cell;

/// What is found in a run of slots.
#[derive(Drop)]
pub struct SlotRun {
    /// The roots of the candidates.
    pub roots: Vec<Cell>,
    /// How many pairs these are, summed over the slots.
    pub touching: u64,
}

/// What a thread has found in some slots.
#[derive(Drop)]
pub struct ThreadRun {
    /// Roots of the candidates.
    pub roots: Vec<Cell>,
    /// How many pairs these are, summed over the slots, or the greatest number that there is.
    pub touching: u64,
    /// Whether this is all that there is: the search was not stopped.
    pub whole: bool,
}
