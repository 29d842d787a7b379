//! Which ticks of a window an object covers: those at which it has a state.
#![tactic(auto)]

mod spans;
mod stretches;
mod uncovered;

pub use spans::covered_spans;
pub use uncovered::{count_uncovered, first_uncovered};
