//! The screener's one call: from the words of a command line over a folder to the outputs on a shelf.
#![tactic(auto)]

mod changing;
mod finding;
mod lines_found;
mod reading;
mod refining;
mod relatives;
mod rescreening;
mod results;
mod screening;
mod selfruns;
mod sifting;
mod task;
mod top;
mod warnings;

pub use top::conj;
