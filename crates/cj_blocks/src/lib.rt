//! Certificates of version 2: one box for an object in four slots on end, where the object then touches nothing more. So a certificate has
//! fewer lines, and the same pairs are candidates in the same slots.
#![tactic(auto)]

mod accepting;
mod block;
mod block_lines;
mod block_slots;
mod in_blocks;
mod joining;
mod listed_boxes;
mod listing;
mod pairs_by_object;
mod round_boxes;

pub use accepting::acceptance_in_blocks;
pub use block::Block;
pub use in_blocks::{certificate_in_blocks, in_version_2, listed_shells};
pub use listing::blocks;
