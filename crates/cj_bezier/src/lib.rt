//! The parts of a track with their hulls, the gap of two hulls and what it says of the distance at each tick, shells, and boxes that touch.
#![tactic(auto)]

mod box_touch;
mod gap_of_hulls;
mod gaps;
mod guide;
mod halving;
mod hull_of_piece;
mod hulls;
mod judging;
mod part;
mod parts_in_order;
mod products;
mod radii;
mod squares;
mod verdict_of_gap;
mod verdicts;

pub use box_touch::box_touches;
pub use gap_of_hulls::{gap, gap_origin};
pub use gaps::Gap;
pub use guide::Guide;
pub use halving::PLACES;
pub use hull_of_piece::hull_ready;
pub use hulls::Hull;
pub use judging::judge;
pub use part::Part;
pub use parts_in_order::next_part;
pub use radii::{join, radius};
pub use squares::{greatest_square, least_square};
pub use verdict_of_gap::{supports, verdict};
pub use verdicts::Verdict;
