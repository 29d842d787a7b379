//! Epochs: how they are read and written.
#![tactic(auto)]

mod days;
mod digits;
mod fault;
mod leap;
mod picture;
mod reading;
mod text;

pub use fault::EpochFault;
pub use leap::leap_between;
pub use reading::read_epoch;
pub use text::epoch_text;
