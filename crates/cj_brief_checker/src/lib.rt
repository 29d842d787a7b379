//! The checker of certificates in brief: whether one is accepted for a problem, or else at which line it first fails, and why.
#![tactic(auto)]

mod cell_steps;
mod cells;
mod checking;
mod cuts;
mod far;
mod halt;
mod header;
mod judged_root;
mod laws;
mod primaries;
mod scratch;
mod showing;
mod shown;
mod slot_cells;
mod slot_pairs;
mod step;
mod tiled;
mod tiling;

pub use checking::check_in_brief;
pub use laws::acceptance_in_brief;
