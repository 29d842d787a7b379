ghost use Rattle.std.specs.Prelude.{◌≡◌};
ghost use Rattle.cj_pool.specs.declared.refined.FinishError.TheVariants.{Memory};

use cj_case::Leaf;
use cj_ledger::Totals;
use std::alloc::{AllocError, AllocFailed};

/// The leaves of all roots of a refinery, in order, and how they came about.
#[derive(Debug, Drop)]
pub struct Refined {
    pub leaves: Vec<Leaf>,
    pub totals: Totals,
}

/// Why the leaves of a refinery are not handed out.
#[derive(Clone, Copy, Debug, PartialEq, Eq)]
pub enum FinishError {
    /// Memory ran out.
    Memory,
    /// There are more leaves than this limit.
    TooMany { limit: u64 },
}

impl From<AllocError> for FinishError {
    ghost from_gives = { λ _ e. e ≡ Memory };

    fn from(_error: AllocError) -> FinishError {
        FinishError::Memory
    }
}

impl<T: Drop> From<AllocFailed<T>> for FinishError {
    ghost from_gives = { λ _ e. e ≡ Memory };

    fn from(_error: AllocFailed<T>) -> FinishError {
        FinishError::Memory
    }
}
