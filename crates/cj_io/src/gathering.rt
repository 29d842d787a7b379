//! All parts of a source at once.
ghost use Rattle.std.specs.Prelude.{◌≡◌, IfOk};
ghost use Rattle.cj_io.specs.Parts.{joined};

use crate::part_source::PartSource;
use std::alloc::{AllocError, Global};
use std::thread::Threads;

/// All that is still to be made, in parts.
pub fn all_parts<R: Threads + Sync, M: PartSource>(
    rt: &R,
    alloc: Global,
    source: &mut M,
) -> Result<Vec<Vec<u8>>, AllocError>
    ensures { IfOk result (λ parts. joined parts.items ≡ M.rest source.old) }
{
    let mut parts = Vec::new(alloc);
    loop {
        let mut next = source.next_parts(rt, alloc)?;
        if next.is_empty() {
            return Ok(parts);
        }
        parts.append(&mut next)?;
    }
}
