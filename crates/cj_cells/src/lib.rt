//! Cells: the roots of a run, their halving, and the leaves that they come to.
#![tactic(auto)]

mod listing;
mod looker;
mod looking;
mod ordering;
mod outcome;
mod preparing;
mod ready_look;
mod ready_pair;
mod refine_error;
mod refining;
mod rooting;

pub use listing::{leaves_of, refine_all, refine_all_once};
pub use looker::Looker;
pub use looking::{look, look_once};
pub use ordering::{number_roots, order_roots};
pub use outcome::Look;
pub use refine_error::RefineError;
pub use refining::{refine, refine_once};
pub use rooting::roots_of_slot;
