//! The outside on a host system: a directory as folder and as shelf, the clock, the words of the command line and the notices that it
//! may ask for. A fault of the system is kept with its reason. Who is at a terminal is told how far a run has come.
#![tactic(auto)]

mod clock;
mod command_help;
mod failure;
mod folder;
mod hint;
mod holding;
mod inputs;
mod listing;
mod new_directory;
mod new_file;
mod new_path;
mod notice;
mod paths;
mod progress;
mod request;
mod shelf;
mod standing;
mod streaming;
mod system_fault;
mod target;
mod watch;

pub use clock::now;
pub use folder::DirFolder;
pub use hint::{print_hint, print_hint_on_files, print_known_causes};
pub use inputs::Inputs;
pub use notice::{Notice, asked_notice, notice_text, print_notice};
pub use paths::Paths;
pub use progress::{Doing, Progress, progress_line};
pub use request::{Request, read_request};
pub use shelf::DirShelf;
pub use system_fault::SystemFault;
pub use watch::Watch;
