//! Tracks without the nodes that no tick of a window needs.
#![tactic(auto)]

mod needed_nodes;
mod trimming;

pub use trimming::trim;
