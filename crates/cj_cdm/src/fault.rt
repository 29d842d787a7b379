//! Why a message is not read.
use cj_kvn::TextFault;

/// Why a message is not read.
pub type CdmFault = TextFault<CdmCause>;

/// What is wrong with a line.
#[derive(Clone, Copy, Debug, PartialEq, Eq)]
pub enum CdmCause {
    /// It does not begin with the key in its place.
    Key,
    /// Its value is not of the form in its place.
    Value,
    /// The text ends before it, or goes on with it.
    End,
}
