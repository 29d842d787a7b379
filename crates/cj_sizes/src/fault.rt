//! Why a file of sizes is not read.
use cj_formats::SizesCause;
use cj_kvn::TextFault;

/// Why a file of sizes is not read.
pub type SizesFault = TextFault<SizesCause>;
