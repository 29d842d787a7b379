//! Slot boxes: the boxes round the parts of a track in a minute, and the pairs of objects whose boxes touch, found by the buckets that
//! the boxes meet.
#![tactic(auto)]

mod axis;
mod box_touch;
mod bucket_pairs;
mod bucket_ranges;
mod buckets;
mod entries;
mod joined_boxes;
mod reach;
mod reaches;
mod slot_objects;
mod sweep;
mod touching_pairs;
mod track_box;

pub use box_touch::touches;
pub use cj_case::AxisBox;
pub use cj_steps::Steps;
pub use touching_pairs::{find_touching, touching};
pub use track_box::slot_box;
