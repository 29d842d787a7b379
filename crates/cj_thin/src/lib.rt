//! Tracks with fewer nodes, whose interpolants stay within a stated length of the first.
#![tactic(auto)]

mod keeping;
mod laws;
mod near;
mod steps;
mod thinning;

pub use laws::nearness;
pub use thinning::thin;
