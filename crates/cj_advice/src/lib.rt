//! What a person needs to know behind a fault line: what is meant, what helps, and each cause at length. Nothing here is for programs to
//! read: the line and the status are those of `cj_status`.
#![tactic(auto)]

mod advice;
mod cause;
mod certificates;
mod differences;
mod ephemerides;
mod explaining;
mod found;
mod headers;
mod hint;
mod hints;
mod limits;
mod near;
mod outside;
mod primaries;
mod ranges;
mod several;
mod sizes;
mod slip_lines;
mod slips;
mod usage;
mod warnings;
mod words;

pub use advice::Advice;
pub use cause::{Cause, FileReason, LimitCause, cause_of, cause_word};
pub use differences::difference_text;
pub use explaining::{explanation, known_causes_text, list_of_causes};
pub use found::{EVERY, cause_named};
pub use hint::Hint;
pub use hints::hint_text;
pub use near::{OPTIONS, nearest_option};
pub use ranges::range_of;
pub use several::hint_on_files;
pub use slips::{Slip, VERBS, slip_in, verb_name};
pub use warnings::warning_text;
pub use words::advice_on;
