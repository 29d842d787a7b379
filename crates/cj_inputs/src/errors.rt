//! Why files were not read, as a status.
ghost use Rattle.std.specs.Prelude.{◌≡◌};
ghost use Rattle.cj_inputs.specs.Errors.{input_status};

use crate::reading::InputError;
use cj_status::Status;

impl From<InputError> for Status {
    ghost from_gives = { λ why s. s ≡ input_status why };

    fn from(why: InputError) -> Self {
        match why {
            InputError::Memory => Status::OutOfMemory,
            InputError::Failed => Status::ReadFault,
            InputError::Refused { file, line, cause } => Status::BadFile { file, line, cause },
            InputError::Limit(fault) => Status::Limit(fault),
        }
    }
}
