//! What is open: a directory is held by one run at a time and brought to the disk, and a file may lose its name to another run.
use crate::failure::Failure;
use std::alloc::{AllocError, Global};
use std::fs::{File, TryLockError};
use std::io::ErrorKind;
use std::os::unix::fs::MetadataExt;
use std::path::{Path, PathBuf};
use std::{fs, io};

/// The path by which a directory is opened. What is no directory has none below it, so that no pipe is opened, which would wait for its
/// writer.
pub fn inside(alloc: Global, directory: &str) -> Result<PathBuf, AllocError> {
    Path::new(directory).join(alloc, ".")
}

/// The name of a file or a directory while it is made.
pub fn hidden_name(alloc: Global, name: &str) -> Result<String, AllocError> {
    format!(in alloc; ".{name}.part")
}

/// What came of asking for a lock on a directory.
#[derive(Clone, Copy, Debug, PartialEq, Eq)]
pub enum Hold {
    /// This run holds it until the file is dropped, or the run ends.
    Held,
    /// Another run does.
    OtherRun,
    /// The system does not say.
    Unknown,
}

/// Asks for the lock on an open directory.
pub fn try_hold(directory: &File) -> Hold {
    match directory.try_lock() {
        Ok(()) => Hold::Held,
        Err(TryLockError::WouldBlock) => Hold::OtherRun,
        Err(TryLockError::Error(_)) => Hold::Unknown,
    }
}

/// Whether it is this open file or directory that has the path, and no link to it.
pub fn is_at(rt: &HostRuntime, path: Path<'_>, file: &File) -> bool {
    match (fs::symlink_metadata(rt, path), file.metadata()) {
        (Ok(named), Ok(open)) => named.dev() == open.dev() && named.ino() == open.ino(),
        _ => false,
    }
}

/// Brings to the disk which files the directory has. Not every file system can be asked for it.
pub fn sync_directory(alloc: Global, path: &str, directory: &File) -> Result<(), Failure> {
    match directory.sync_all() {
        Err(reason) if !is_refused(&reason) => Err(Failure::at(alloc, path, reason)),
        _ => Ok(()),
    }
}

fn is_refused(reason: &io::Error) -> bool {
    matches!(
        reason.kind(),
        ErrorKind::InvalidInput | ErrorKind::Unsupported
    )
}
