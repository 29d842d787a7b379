//! The pieces of tracks, the runs of ticks at which they are used, and the interpolant of each: its control values, its levels by de
//! Casteljau's algorithm, and its place and rate, enclosed at a tick.
#![tactic(auto)]

mod box3;
mod common_run;
mod common_runs;
mod control_values;
mod controlling;
mod cutting;
mod finding;
mod first_values;
mod found_pieces;
mod hints;
mod level_spans;
mod levels;
mod piece_lookup;
mod pieces;
mod places;
mod rates;
mod ready_axis;
mod readying;
mod runs;
mod searches;
mod walking;

pub use box3::Box3;
pub use common_run::CommonRun;
pub use common_runs::{next_common, next_common_pieces};
pub use control_values::Controls;
pub use controlling::controls;
pub use cutting::cut;
pub use finding::{piece, piece_at, segment_of};
pub use hints::{Hint, Hints, PairHint};
pub use level_spans::{Bounds, FirstLevel, SecondLevel};
pub use levels::{first_level, polar, second_level, third_level};
pub use piece_lookup::piece_of;
pub use pieces::Piece;
pub use places::point;
pub use rates::rate;
pub use ready_axis::{Ready, ReadyAxis, Speed};
pub use readying::ready;
pub use runs::PieceRun;
pub use walking::{next_run, run_from};
