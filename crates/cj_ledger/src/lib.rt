//! The ledger of a run: what workers count together without a lock. It has the number of cells that are live, the number of
//! leaves that are certain, and the causes for which the workers are to stop. Each worker counts with a share of its own.
#![tactic(auto)]

mod count;
mod ledger;
mod plays;
mod rule;
mod share;
mod starting;
mod totaling;
mod totals;
mod why;
mod words;

pub use ledger::Ledger;
pub use share::Share;
pub use totals::Totals;
pub use why::Why;
