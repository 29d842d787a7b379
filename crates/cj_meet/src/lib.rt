//! Encounters: what the leaves of a run come to, and the closest approach of each.
#![tactic(auto)]

mod approach_list;
mod approaches;
mod approaching;
mod flatness;
mod looking;
mod meeting;
mod runs;
mod searching;

pub use approach_list::closest_approaches;
pub use approaching::closest;
pub use cj_case::{Closest, Encounter, Mark};
pub use meeting::encounters;
