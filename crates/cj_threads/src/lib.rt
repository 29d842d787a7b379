//! A list that several threads go over together, and lists merged by them into one in order of pair and first tick. Each thread asks a
//! counter for the number of its next part, and nothing is proved of that counter: an output is put at the place of its part.
#![tactic(auto)]

mod dealing;
mod dealt_parts;
mod joining;
mod merging;
mod placed;
mod ranges;
mod sorting;
mod told;

pub use dealing::map_dealt;
pub use dealt_parts::{all_made, map_parts};
pub use merging::merge_runs;
pub use placed::Placed;
pub use told::{Nobody, Told};
