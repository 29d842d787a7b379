//! What can be wrong with the text of an input, as a fault line tells it, and the formats of a certificate: in a crate below the readers
//! and the checker, so that what tells of them need not wait for their proofs.
#![tactic(auto)]

mod cert_cause;
mod cert_format;
mod cert_version;
mod check_cause;
mod oem_cause;
mod primaries_cause;
mod sizes_cause;

pub use cert_cause::CertCause;
pub use cert_format::CertFormat;
pub use cert_version::CertVersion;
pub use check_cause::CheckCause;
pub use oem_cause::OemCause;
pub use primaries_cause::PrimariesCause;
pub use sizes_cause::SizesCause;
