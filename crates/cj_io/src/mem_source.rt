ghost use Rattle.std.specs.Prelude.{◌≡◌, ◌<◌, ◌++◌, length, IfOk};
ghost use Rattle.cj_io.specs.Parts.{joined};

use crate::part_source::PartSource;
use std::alloc::{AllocError, Global};
use std::thread::Threads;

/// Bytes in memory as a source. It makes two parts of so many bytes at a time, the last of them shorter.
#[derive(Debug, Drop)]
pub struct MemSource<'a> {
    left: &'a [u8],
    part: usize,
}

impl<'a> MemSource<'a> {
    /// A source of these bytes, in parts of so many, but of one at least.
    pub fn new(bytes: &'a [u8], part: usize) -> Self
        ensures { ⟦<MemSource<'a> as PartSource>⟧.rest result ≡ bytes.now }
    {
        MemSource { left: bytes, part }
    }
}

impl PartSource for MemSource<'_> {
    ghost rest = { λ s. s.left.now };

    ghost left = { λ s. length s.left.now };

    fn next_parts<R: Threads + Sync>(
        &mut self,
        _rt: &R,
        alloc: Global,
    ) -> Result<Vec<Vec<u8>>, AllocError> {
        if self.left.is_empty() {
            return Ok(Vec::new(alloc));
        }
        let part = self.part.clamp(1, self.left.len());
        let (front, behind) = self.left.split_at(part);
        let (back, rest) = behind.split_at(part.min(behind.len()));
        let parts = copies_of(alloc, front, back)?;
        self.left = rest;
        Ok(parts)
    }

    fn is_shared(&self) -> bool {
        true
    }
}

/// Two parts, copied.
fn copies_of(alloc: Global, front: &[u8], back: &[u8]) -> Result<Vec<Vec<u8>>, AllocError>
    ensures joined { IfOk result (λ parts. joined parts.items ≡ front.now ++ back.now) }
    ensures some { IfOk result (λ parts. 0 < length parts.items) }
{
    let mut parts = Vec::new(alloc);
    parts.push(Vec::from_slice(alloc, front)?)?;
    parts.push(Vec::from_slice(alloc, back)?)?;
    Ok(parts)
}
