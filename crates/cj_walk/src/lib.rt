//! Walks along a track in a window, part by part, each of which has its hull, and the gap round those of all parts that a walk has passed.
#![tactic(auto)]

mod joined_gaps;
mod track_walk;

pub use track_walk::TrackWalk;
