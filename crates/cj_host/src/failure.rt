use crate::system_fault::SystemFault;
use std::alloc::{AllocError, AllocFailed, Global};
use std::io;
use std::io::ErrorKind;

/// Why the system did not do what it was asked for.
#[derive(Drop)]
pub enum Failure {
    /// There was no memory.
    Memory,
    /// A call on a file failed. Which file, is told where there is memory for its name.
    Fault(Option<SystemFault>),
}

impl Failure {
    /// A call failed on the file with this path.
    pub fn at(alloc: Global, path: &str, reason: io::Error) -> Failure {
        Failure::Fault(SystemFault::of(alloc, path, reason))
    }

    /// The same of a call that takes memory of its own.
    pub fn of_call(alloc: Global, path: &str, reason: io::Error) -> Failure {
        if reason.kind() == ErrorKind::OutOfMemory {
            return Failure::Memory;
        }
        Failure::at(alloc, path, reason)
    }

    /// Another run holds the directory with this path.
    pub fn other_run(alloc: Global, path: &str) -> Failure {
        Failure::at(
            alloc,
            path,
            io::Error::new(ErrorKind::WouldBlock, "another run is writing there"),
        )
    }
}

impl From<AllocError> for Failure {
    fn from(_: AllocError) -> Self {
        Failure::Memory
    }
}

impl<T: Drop> From<AllocFailed<T>> for Failure {
    fn from(_: AllocFailed<T>) -> Self {
        Failure::Memory
    }
}

/// What a call on the file with this path came to.
pub fn done_at<T>(alloc: Global, path: &str, done: io::Result<T>) -> Result<T, Failure> {
    match done {
        Ok(value) => Ok(value),
        Err(reason) => Err(Failure::at(alloc, path, reason)),
    }
}
