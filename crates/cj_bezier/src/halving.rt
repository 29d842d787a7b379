//! The halving of a run of ticks.

/// How many parts of a run of ticks wait at most where it is halved and its first half is judged first: one more than the halvings of
/// 2^32 ticks, and a piece is shorter than that.
pub const PLACES: usize = 33;
