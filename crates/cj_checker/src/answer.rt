use cj_formats::CheckCause;

/// Whether a certificate is accepted, or the first line at which it is not, counted from 1, and why.
#[derive(Clone, Copy, Debug, PartialEq, Eq)]
pub enum Answer {
    Accepted,
    Refused { line: u32, cause: CheckCause },
}
