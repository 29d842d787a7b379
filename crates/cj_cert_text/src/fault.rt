//! Why a text is not read as a certificate.
use cj_formats::CertCause;
use cj_kvn::TextFault;

/// Why a text is not read as a certificate.
pub type CertFault = TextFault<CertCause>;
