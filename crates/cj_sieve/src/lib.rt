//! The perigee and apogee filter: the shells in which tracks stay, and the pairs whose shells are not parted.
#![tactic(auto)]

mod pair_filter;
mod parted_shells;
mod shelled_objects;
mod track_shell;

pub use pair_filter::{count_kept, keeps, kept_pairs};
pub use parted_shells::parted;
pub use shelled_objects::ShelledObjects;
pub use track_shell::shell;
