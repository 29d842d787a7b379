//! Workers that halve the cells of a problem beside each other. Each hand has a deque of its own. It keeps the first half of a
//! cell, pushes the second, and where it has none steals from the other hands. No call of a turn waits.
#![tactic(auto)]

mod account;
mod collecting;
mod crew;
mod dealing;
mod emptied;
mod finding;
mod finishing;
mod growing;
mod hand;
mod joining;
mod lengths;
mod listing;
mod picking;
mod refined;
mod refinery;
mod rule;
mod run;
mod running;
mod seating;
mod sorting;
mod starting;
mod station;
mod stealing;
mod steps;
mod taking;
mod turn;
mod turning;
mod work;

pub use crew::run_hands;
pub use hand::Hand;
pub use lengths::true_lists;
pub use listing::{leaves_by_hands, leaves_by_workers, leaves_of_list};
pub use refined::{FinishError, Refined};
pub use refinery::Refinery;
pub use run::Run;
pub use turn::Turn;
