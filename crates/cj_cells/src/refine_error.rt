ghost use Rattle.std.specs.Prelude.{◌≡◌};
ghost use Rattle.cj_cells.specs.declared.refine_error.RefineError.TheVariants.{Memory};

use std::alloc::{AllocError, AllocFailed};

/// Why a list of cells or leaves is not whole.
#[derive(Clone, Copy, Debug, PartialEq, Eq)]
pub enum RefineError {
    /// Memory ran out.
    Memory,
    /// The list is longer than its limit.
    TooMany,
}

impl From<AllocError> for RefineError {
    ghost from_gives = { λ _ e. e ≡ Memory };

    fn from(_error: AllocError) -> RefineError {
        RefineError::Memory
    }
}

impl<T: Drop> From<AllocFailed<T>> for RefineError {
    ghost from_gives = { λ _ e. e ≡ Memory };

    fn from(_error: AllocFailed<T>) -> RefineError {
        RefineError::Memory
    }
}
