//! The errors of the layers below as statuses.
ghost use Rattle.std.specs.Prelude.{◌≡◌};
ghost use Rattle.cj_status.specs.declared.status.Status.TheVariants.{OutOfMemory, Usage};
ghost use Rattle.cj_status.specs.Errors.{folder_status, shelf_status};

use crate::status::Status;
use cj_io::{FolderError, PutError};
use cj_words::UsageFault;
use std::alloc::{AllocError, AllocFailed};

impl From<AllocError> for Status {
    ghost from_gives = { λ _ s. s ≡ OutOfMemory };

    fn from(_: AllocError) -> Self {
        Status::OutOfMemory
    }
}

impl<T: Drop> From<AllocFailed<T>> for Status {
    ghost from_gives = { λ _ s. s ≡ OutOfMemory };

    fn from(_: AllocFailed<T>) -> Self {
        Status::OutOfMemory
    }
}

impl From<UsageFault> for Status {
    ghost from_gives = { λ fault s. s ≡ Usage fault };

    fn from(fault: UsageFault) -> Self {
        Status::Usage(fault)
    }
}

impl From<FolderError> for Status {
    ghost from_gives = { λ error s. s ≡ folder_status error };

    fn from(error: FolderError) -> Self {
        match error {
            FolderError::Memory => Status::OutOfMemory,
            FolderError::Failed => Status::ReadFault,
        }
    }
}

impl From<PutError> for Status {
    ghost from_gives = { λ error s. s ≡ shelf_status error };

    fn from(error: PutError) -> Self {
        match error {
            PutError::Memory => Status::OutOfMemory,
            PutError::Failed => Status::WriteFault,
        }
    }
}
