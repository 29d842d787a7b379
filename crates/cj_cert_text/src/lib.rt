//! The text of a certificate, in full in two versions and in brief: how it is read and printed, and the text of the certificate that a run
//! writes.
#![tactic(auto)]

mod cert_line;
mod certificate_text;
mod draft;
mod fault;
mod line_said;
mod line_text;
mod number;
mod object_boxes;
mod printed_boxes;
mod printed_line;
mod printed_parts;
mod printing;
mod rank;
mod reading;
mod rows;
mod words;
mod written_text;

pub use certificate_text::CertificateText;
pub use cj_formats::CertCause;
pub use fault::CertFault;
pub use printing::{brief_parts, brief_text, cert_parts, cert_text};
pub use reading::{read_brief, read_cert};
