//! The candidates of a problem: in each slot the pairs of objects that shells and boxes do not show to be far, and the roots of these
//! pairs. What is found on the way is kept.
#![tactic(auto)]

mod candidates;
mod crowding;
mod few_primaries;
mod filtering;
mod ground;
mod keeping;
mod measured_object;
mod objects_measured;
mod one_slot;
mod slot_boxes;
mod slot_run;
mod slots_searched;
mod slots_shared;
mod sought_pairs;
mod together;
mod touching;

pub use candidates::Candidates;
pub use crowding::is_crowded;
pub use few_primaries::{few_kept, sought_among};
pub use filtering::{
    count_kept_of, find_among, find_candidates, find_wanted, measure_again, measure_all,
    roots_in_turn,
};
pub use one_slot::candidates_in_slot;
pub use sought_pairs::Sought;
