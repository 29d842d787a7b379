//! What a run is asked, and what is found: tracks, window, threshold, sizes and primaries as a problem, its slots, pairs and their order; shells, boxes,
//! cells, leaves and encounters; and values by object and slot.
#![tactic(auto)]

mod axis_box;
mod by_slot;
mod cell;
mod encounter;
mod kind;
mod leaf;
mod measured;
mod pair;
mod primaries;
mod problem;
mod shells;
mod sizes;
mod slots;
mod thresholds;
mod tracks;

pub use axis_box::AxisBox;
pub use by_slot::BySlot;
pub use cell::Cell;
pub use encounter::{Closest, Encounter, Mark};
pub use kind::Kind;
pub use leaf::Leaf;
pub use measured::Measured;
pub use pair::Pair;
pub use primaries::Primaries;
pub use problem::Problem;
pub use shells::Shell;
pub use sizes::Sizes;
pub use slots::{SLOT, slot_count, slot_window};
pub use thresholds::{BAND, threshold_between};
pub use tracks::Tracks;
