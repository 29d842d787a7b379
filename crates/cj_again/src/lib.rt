//! Screening again: the leaves of a problem that has some objects of one that was screened. What is known of unchanged pairs is carried over,
//! and only the others are looked at.
#![tactic(auto)]

mod appending;
mod carrying;
mod changed;
mod counting;
mod ends;
mod matching;
mod objects_matched;
mod pairs_changed;
mod places_of;
mod rescreening;
mod rows;
mod screened;
mod sources;

pub use carrying::carried;
pub use changed::changed_roots;
pub use cj_cells::{RefineError as AgainError, look_once};
pub use counting::{count_unchanged, kept_unchanged, unchanged};
pub use ends::Ends;
pub use matching::Matching;
pub use objects_matched::match_objects;
pub use pairs_changed::changed_pairs;
pub use places_of::places;
pub use rescreening::again;
pub use screened::Screened;
