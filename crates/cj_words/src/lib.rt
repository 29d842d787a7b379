//! The words of a command line, and the command that they ask for.
#![tactic(auto)]

mod command;
mod commands;
mod digits;
mod front;
mod given;
mod limits;
mod line;
mod numbers;
mod option;
mod places;
mod reading;
mod settings;
mod telling;
mod texts;

pub use command::{Checking, Command, Recipe, Rescreening, Screening, Selfrun, Thinning, Verb};
pub use commands::read_command;
pub use front::{Front, front_of, split_at_equals};
pub use given::is_known;
pub use limits::{LARGE, limits_of, most_certificate_bytes, most_told};
pub use line::{Line, line_of, verb_of};
pub use option::{Opt, UsageFault, option_name};
pub use places::{Places, places_of};
pub use settings::{Settings, Word};
pub use telling::{Telling, telling_of};
