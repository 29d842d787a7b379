//! The whole list of leaves, slab by slab: a slab is a run of some slots. The leaves of roots that are far throughout are counted and
//! forgotten, so that what is kept is little beside what is looked at.
#![tactic(auto)]

mod closing;
mod counts;
mod cutting;
mod far_leaves;
mod halt;
mod joining;
mod leaf_counts;
mod leaf_limits;
mod marking;
mod roots_sifted;
mod scratch;
mod sift_error;
mod sifted;
mod sifting;
mod slab;
mod slots_sifted;
mod so_far;
mod telling;
mod together;

pub use leaf_counts::LeafCounts;
pub use leaf_limits::LeafLimits;
pub use marking::marked;
pub use sift_error::SiftError;
pub use sifted::Sifted;
pub use sifting::sift;
pub use telling::told_in_one;
