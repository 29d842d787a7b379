use cj_case::Problem;

/// A certificate, the problem for which it is to be checked, and the report that is to be checked beside it.
#[derive(Debug, Drop)]
pub struct CheckInputs {
    pub problem: Problem,
    /// The bytes of the certificate's file.
    pub certificate: Vec<u8>,
    /// The bytes of the report's file, where one is named.
    pub report: Option<Vec<u8>>,
}
