ghost use Rattle.std.specs.Prelude.{◌≡◌};
ghost use Rattle.cj_slabs.specs.declared.sift_error.SiftError.TheVariants as error;

use std::alloc::{AllocError, AllocFailed};

/// Why a problem is not sifted.
#[derive(Clone, Copy, Debug, PartialEq, Eq)]
pub enum SiftError {
    /// Memory ran out.
    Memory,
    /// It has more leaves than may be.
    TooMany,
    /// It has no more leaves than may be, but more of them are to be told.
    TooManyTold,
}

impl From<AllocError> for SiftError {
    ghost from_gives = { λ _ e. e ≡ error.Memory };

    fn from(_error: AllocError) -> SiftError {
        SiftError::Memory
    }
}

impl<T: Drop> From<AllocFailed<T>> for SiftError {
    ghost from_gives = { λ _ e. e ≡ error.Memory };

    fn from(_error: AllocFailed<T>) -> SiftError {
        SiftError::Memory
    }
}
