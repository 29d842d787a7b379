//! Small tracks and cases for the tests of the crates above: objects at rest and on straight lines in the first hour of 2025, texts of
//! ephemerides, and two tracks of points over a minute and one tick, by a threshold of 5 km.
#![tactic(auto)]

mod cases;
mod passing;
mod segments;
mod texts;
mod ticks;
mod tracks;

pub use cases::{crossing, problem_of, resting, sized};
pub use passing::{along_y, along_z};
pub use segments::{AT_7000, AT_7005, AT_7100, REST, moving, node, rest, useable};
pub use texts::{Change, HEAD, append_lines};
pub use ticks::{second, seconds, tick, window};
pub use tracks::{track, track_of, track_of_two};
