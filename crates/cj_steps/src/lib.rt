//! A counter of steps: what a call that counts says of how long it takes.
#![tactic(auto)]

mod steps;

pub use steps::Steps;
