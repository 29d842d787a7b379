//! What is wrong with a line of a certificate.
/// What is wrong with a line.
#[derive(Clone, Copy, Debug, PartialEq, Eq)]
pub enum CertCause {
    /// It is none of the lines that may stand there.
    Form,
    /// A number is out of its range.
    Range,
    /// The text ends too early, or goes on behind its last line.
    End,
}
