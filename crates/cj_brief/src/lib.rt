//! Certificates in brief, which are those of version 3: without boxes, and without the cells of roots that are far throughout; which of
//! them are accepted, what this says, and the leaves that the one of a run tells.
#![tactic(auto)]

mod accepting;
mod brief_certificate;
mod primaries;
mod telling;

pub use accepting::acceptance_in_brief;
pub use brief_certificate::BriefCertificate;
pub use primaries::primary_lines;
pub use telling::told_of_list;
