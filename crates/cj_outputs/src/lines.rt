ghost use Rattle.std.specs.Prelude.{◌≡◌};
ghost use Rattle.cj_outputs.specs.Lines.{leaves_met};

use cj_case::{Leaf, Measured, Shell};
use cj_formats::CertVersion;

/// What a certificate is made of, and the leaves of which the encounters are.
#[derive(Debug, Drop)]
pub enum Lines {
    /// In full.
    InFull {
        version: CertVersion,
        /// The shells and boxes of the objects.
        measured: Measured,
        /// The leaves of all candidates, in order of pair and time.
        leaves: Vec<Leaf>,
    },
    /// In brief.
    InBrief {
        /// The shell of each object.
        shells: Vec<Option<Shell>>,
        /// The leaves of the roots that are not far throughout, in order of slot, pair and time.
        told: Vec<Leaf>,
        /// At least those leaves that are near or undecided, in order of pair and time.
        met: Vec<Leaf>,
    },
}

impl Lines {
    /// The leaves of which the encounters are.
    pub fn met(&self) -> &[Leaf]
        ensures { result.now ≡ leaves_met self.now }
    {
        match self {
            Lines::InFull { leaves, .. } => leaves,
            Lines::InBrief { met, .. } => met,
        }
    }
}
