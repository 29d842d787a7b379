//! Writing bytes while the next are made.
ghost use Rattle.std.specs.Prelude.{◌<◌, length, IfOk};
ghost use Rattle.std.specs.Thread.{IsSync};

use crate::failure::Failure;
use crate::watch::Watch;
use cj_io::{PartSource, all_parts};
use std::alloc::{AllocError, AllocFailed, Global};
use std::io;
use std::io::Write;
use std::thread::{Threads, join_mut};

/// Why bytes were not made and written to their end.
#[derive(Drop)]
pub enum MakeError {
    /// There was no memory.
    Memory,
    /// A write failed.
    Fault(io::Error),
}

impl MakeError {
    /// The same, of the file with this path.
    pub fn at(self, alloc: Global, path: &str) -> Failure {
        match self {
            MakeError::Memory => Failure::Memory,
            MakeError::Fault(reason) => Failure::at(alloc, path, reason),
        }
    }
}

impl From<AllocError> for MakeError {
    fn from(_: AllocError) -> Self {
        MakeError::Memory
    }
}

impl<T: Drop> From<AllocFailed<T>> for MakeError {
    fn from(_: AllocFailed<T>) -> Self {
        MakeError::Memory
    }
}

impl From<io::Error> for MakeError {
    fn from(reason: io::Error) -> Self {
        MakeError::Fault(reason)
    }
}

/// Writes parts, and behind them all that the source makes: each batch while the next is made, where several threads make it.
/// The watch is told of the bytes.
pub fn write_while_made<W: Write + Send, R: Threads + Sync, M: PartSource>(
    to: &mut W,
    rt: &R,
    alloc: Global,
    first: Vec<Vec<u8>>,
    source: &mut M,
    watch: Option<&Watch<'_>>,
) -> Result<(), MakeError> {
    let mut ready = first;
    loop {
        let next = write_and_make(to, rt, alloc, &ready, source, watch)?;
        if next.is_empty() {
            return Ok(());
        }
        ready = next;
    }
}

/// Writes parts, and answers the next, which are made meanwhile where several threads make them. A fault of the write is told before a
/// want of memory.
fn write_and_make<W: Write + Send, R: Threads + Sync, M: PartSource>(
    to: &mut W,
    rt: &R,
    alloc: Global,
    ready: &[Vec<u8>],
    source: &mut M,
    watch: Option<&Watch<'_>>,
) -> Result<Vec<Vec<u8>>, MakeError>
    ensures { IfOk result (λ next. 0 < length next.items → M.left source.new < M.left source.old) }
{
    if !source.is_shared() {
        write_parts(to, ready, watch)?;
        return source.next_parts(rt, alloc).map_err(MakeError::from);
    }
    let mut make = || -> Result<Vec<Vec<u8>>, AllocError>
        requires { IsSync R.row }
        ensures { IfOk result (λ next. 0 < length next.items → M.left source.exit.now < M.left source.entry.now) }
    { source.next_parts(rt, alloc) };
    let mut write = || write_parts(to, ready, watch);
    let (written, made) = join_mut(rt, &mut write, &mut make);
    written?;
    made.map_err(MakeError::from)
}

/// Makes all that the source still has to make, and writes it behind the first parts.
pub fn write_all_made<W: Write, R: Threads + Sync, M: PartSource>(
    to: &mut W,
    rt: &R,
    alloc: Global,
    first: &[Vec<u8>],
    source: &mut M,
) -> Result<(), MakeError> {
    let rest = all_parts(rt, alloc, source)?;
    write_parts(to, first, None)?;
    write_parts(to, &rest, None).map_err(MakeError::Fault)
}

fn write_parts<W: Write>(
    to: &mut W,
    parts: &[Vec<u8>],
    watch: Option<&Watch<'_>>,
) -> io::Result<()> {
    for part in parts {
        write_and_tell(to, part, watch)?;
    }
    Ok(())
}

/// Writes bytes. The watch is told how many.
pub fn write_and_tell<W: Write>(
    to: &mut W,
    bytes: &[u8],
    watch: Option<&Watch<'_>>,
) -> io::Result<()> {
    to.write_all(bytes)?;
    if let Some(watch) = watch {
        watch.wrote(bytes.len() as u64);
    }
    Ok(())
}
