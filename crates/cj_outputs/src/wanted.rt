ghost use Rattle.std.specs.Prelude.{◌≤◌};
ghost use Rattle.cj_base.specs.Bounds.{MOST_LEAVES};

use crate::reporting::tells_of;
use cj_formats::CertFormat;
use cj_report::Tells;
use cj_words::{Screening, most_told};

/// How a problem is screened, and what is wanted of its outputs.
#[derive(Clone, Copy, Debug)]
pub struct Wanted {
    /// What the report tells beside the encounters.
    pub tells: Tells,
    /// How the certificate is written.
    pub format: CertFormat,
    /// How many workers search, and make the texts, from 1 to 16.
    pub workers: u32,
    /// The greatest number of leaves.
    pub leaves: u64,
    /// The greatest number of leaves that a certificate in brief tells.
    pub told: u64,
    /// Whether a whole sky is screened, whose leaves are too many for one list.
    pub large: bool,
    pub ghost some: { 1 ≤ workers },
    pub ghost few_workers: { workers ≤ 16 },
    pub ghost few_leaves: { leaves ≤ MOST_LEAVES },
}

impl Wanted {
    ghost use Rattle.std.specs.Prelude.{◌≡◌, true};
    ghost use Rattle.cj_formats.specs.declared.cert_format.CertFormat.TheVariants.{Brief};
    ghost use Rattle.cj_outputs.specs.Outcome as spec;
    ghost use Rattle.cj_words.specs.Limits.{most_told};
    ghost use Rattle.cj_words.specs.Settings.{plain_settings};

    /// What a screening wants.
    pub fn of(screening: &Screening) -> Wanted
        ensures tells { result.tells ≡ spec.tells_of (plain_settings screening.now.settings) }
        ensures format { result.format ≡ screening.now.format }
        ensures workers { result.workers ≡ screening.now.workers }
        ensures leaves { result.leaves ≡ screening.now.cells }
        ensures told { result.told ≡ most_told screening.now.settings.large }
        ensures large { result.large ≡ screening.now.settings.large }
    {
        Wanted {
            tells: tells_of(&screening.settings),
            format: screening.format,
            workers: screening.workers,
            leaves: screening.cells,
            told: most_told(screening.settings.large),
            large: screening.settings.large,
        }
    }

    /// Whether a problem is searched slab by slab: a whole sky, whose certificate is in brief.
    pub fn goes_by_slabs(&self) -> bool
        ensures { result ≡ true → self.now.format ≡ Brief }
    {
        self.large && self.format == CertFormat::Brief
    }
}
