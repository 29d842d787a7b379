use crate::lines::Lines;
use crate::wanted::Wanted;
use cj_case::{Closest, Encounter, Problem};
use cj_report::Counts;

/// What stands behind a summary.
#[derive(Clone, Copy, Debug, PartialEq, Eq)]
pub enum Behind {
    Nothing,
    /// That the certificate is accepted.
    CheckAccepted,
    /// How many pairs are kept and unchanged, of a screening again.
    Kept(u64),
}

/// All that is found in a problem. After it a run can fail only for want of memory or in a write.
#[derive(Debug, Drop)]
pub struct Findings {
    pub problem: Problem,
    /// How it was found, and what is wanted of its outputs.
    pub wanted: Wanted,
    /// What its certificate is made of, and the leaves of which the encounters are.
    pub lines: Lines,
    /// The encounters of those leaves.
    pub encounters: Vec<Encounter>,
    /// The closest approach of each encounter.
    pub closest: Vec<Closest>,
    /// Whether each encounter has a message.
    pub messages: Vec<bool>,
    /// What the summary tells.
    pub counts: Counts,
    /// What stands behind it.
    pub behind: Behind,
}
