//! The certificate of a run: a reason for every span that the report leaves out; which certificates are accepted, what this says, and
//! the one that a run writes.
#![tactic(auto)]

mod accepting;
mod cert_lines;
mod certificate;
mod written;

pub use accepting::acceptance;
pub use cert_lines::{BoxLine, CellLine, ShellLine, SizeOfLine};
pub use certificate::Certificate;
pub use written::{cell_lines, shell_lines, size_lines, written_certificate};
