//! Why an ephemeris is not read.
use cj_formats::OemCause;
use cj_kvn::TextFault;

/// Why an ephemeris is not read.
pub type OemFault = TextFault<OemCause>;
