//! The report of a run and its summary, as text.
#![tactic(auto)]

mod counts;
mod encounters;
mod lines;
mod objects;
mod report;
mod span_line;
mod summary;
mod tells;

pub use counts::Counts;
pub use report::{changed_text, report_text};
pub use summary::{changed_summary_text, push_kept, push_uncovered, summary_text};
pub use tells::Tells;
