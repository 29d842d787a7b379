//! The name under which a message is put.
ghost use Rattle.std.specs.Prelude.{◌≡◌, IfOk};
ghost use Rattle.cj_cdm.specs.Names.{name_of};

use crate::printing::number_text;
use std::alloc::{AllocError, Global};

/// The name of the message with this number: the number with six digits or more, and `.cdm`.
pub fn message_name(alloc: Global, number: u32) -> Result<Vec<u8>, AllocError>
    ensures { IfOk result (λ name. name.items ≡ name_of number) }
{
    let mut name = Vec::with_capacity(alloc, ROOM)?;
    name.extend_from_slice(&number_text(number))?;
    name.extend_from_slice(b".cdm")?;
    Ok(name)
}

/// Enough for the longest number and the ending.
const ROOM: usize = 14;
