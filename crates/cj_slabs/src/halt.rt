ghost use Rattle.std.specs.Prelude.{◌≡◌};
ghost use Rattle.cj_slabs.specs.Halts.{halt_of};
ghost use Rattle.cj_slabs.specs.declared.halt.Halt.TheVariants as halt;

use cj_cells::RefineError;
use std::alloc::{AllocError, AllocFailed};

/// Why some slots are not searched to their end.
#[derive(Clone, Copy, Debug, PartialEq, Eq)]
pub enum Halt {
    /// Memory ran out.
    Memory,
    /// They alone have more leaves than may be.
    TooMany,
    /// Threads have found too many together.
    Stopped,
}

impl From<AllocError> for Halt {
    ghost from_gives = { λ _ e. e ≡ halt.Memory };

    fn from(_error: AllocError) -> Halt {
        Halt::Memory
    }
}

impl From<RefineError> for Halt {
    ghost from_gives = { λ error e. e ≡ halt_of error };

    fn from(error: RefineError) -> Halt {
        match error {
            RefineError::Memory => Halt::Memory,
            RefineError::TooMany => Halt::TooMany,
        }
    }
}
