//! Bytes that come in parts.
ghost use Rattle.std.specs.Prelude.{◌≡◌, IfOk};
ghost use Rattle.cj_io.specs.Parts.{joined};

use std::alloc::{AllocError, Global};

/// Parts, one behind another.
pub fn join_parts(alloc: Global, parts: &[Vec<u8>]) -> Result<Vec<u8>, AllocError>
    ensures { IfOk result (λ bytes. bytes.items ≡ joined parts.now) }
{
    let mut bytes = Vec::new(alloc);
    for part in parts {
        bytes.extend_from_slice(part)?;
    }
    Ok(bytes)
}
