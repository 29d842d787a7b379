//! How a run ends: its status, what that is called, and the line that says why.
#![tactic(auto)]

mod errors;
mod fault_line;
mod status;

pub use fault_line::{cause_name, certificate_cause_name, fault_text, push_name};
pub use status::{CertificateCause, FileCause, LimitFault, Status};
