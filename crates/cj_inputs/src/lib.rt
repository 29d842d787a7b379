//! From the words and the files of a folder to the problem that is to be screened.
#![tactic(auto)]

mod all_faults;
mod alone;
mod apart;
mod batch;
mod batching;
mod certificates;
mod check_inputs;
mod copying;
mod covering;
mod errors;
mod input_files;
mod lone_tracks;
mod object_attributes;
mod object_primaries;
mod object_sizes;
mod overlapping;
mod parsing;
mod placing;
mod preparing;
mod preparing_updates;
mod progress;
mod reading;
mod reading_updates;
mod taken;
mod taking;
mod trims;
mod updated;
mod updates;
mod updating;
mod warnings;
mod window;

pub use alone::read_alone;
pub use certificates::prepare_check;
pub use check_inputs::CheckInputs;
pub use covering::{prepare_rescreening, prepare_screening};
pub use lone_tracks::LoneTracks;
pub use preparing::prepare;
pub use preparing_updates::prepare_update;
pub use taken::node_count;
pub use updating::Updating;
