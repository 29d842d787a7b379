//! Files that this run makes. None is written into that was there before.
use crate::failure::{Failure, done_at};
use crate::holding::is_at;
use crate::streaming::{MakeError, write_and_tell, write_while_made};
use crate::watch::Watch;
use cj_io::PartSource;
use std::alloc::Global;
use std::fs::{File, OpenOptions};
use std::io::Write;
use std::path::PathBuf;
use std::thread::Threads;
use std::{fs, io};

/// A file that this run has made, and its path.
#[derive(Drop)]
pub struct NewFile {
    pub path: PathBuf,
    pub file: File,
}

impl NewFile {
    /// Makes a file where none is.
    pub fn make(rt: &HostRuntime, alloc: Global, path: PathBuf) -> Result<NewFile, Failure> {
        let made = create(rt, &path);
        NewFile::made(alloc, path, made)
    }

    /// Makes a file. What an earlier run left under its name is taken away, and neither opened nor followed.
    pub fn make_anew(rt: &HostRuntime, alloc: Global, path: PathBuf) -> Result<NewFile, Failure> {
        let made = match create(rt, &path) {
            Err(reason) if reason.kind() == io::ErrorKind::AlreadyExists => {
                fs::remove_file(rt, path.as_path()).and_then(|()| create(rt, &path))
            }
            made => made,
        };
        NewFile::made(alloc, path, made)
    }

    fn made(alloc: Global, path: PathBuf, made: io::Result<File>) -> Result<NewFile, Failure> {
        let file = done_at(alloc, path.as_str(), made)?;
        Ok(NewFile { path, file })
    }

    /// Writes slices, one behind another. The watch is told of the bytes.
    pub fn write(
        &mut self,
        alloc: Global,
        slices: &[&[u8]],
        watch: Option<&Watch<'_>>,
    ) -> Result<(), Failure> {
        let written = write_slices(&mut self.file, slices, watch);
        done_at(alloc, self.path.as_str(), written)
    }

    /// Writes parts and what the source makes behind them. The watch is told of the bytes.
    pub fn write_made<R: Threads + Sync, M: PartSource>(
        &mut self,
        rt: &R,
        alloc: Global,
        first: Vec<Vec<u8>>,
        source: &mut M,
        watch: Option<&Watch<'_>>,
    ) -> Result<(), Failure> {
        let written = write_while_made(&mut self.file, rt, alloc, first, source, watch);
        written.map_err(|error| error.at(alloc, self.path.as_str()))
    }

    /// Whether the file still has its path. Another run can take it away only where none holds the directory.
    pub fn is_there(&self, rt: &HostRuntime) -> bool {
        is_at(rt, self.path.as_path(), &self.file)
    }

    /// Takes the file away, if it still has its path.
    pub fn remove(&self, rt: &HostRuntime) {
        if self.is_there(rt) {
            let _ = fs::remove_file(rt, self.path.as_path());
        }
    }

    /// Brings to the disk what was written.
    pub fn sync(&self, alloc: Global) -> Result<(), Failure> {
        done_at(alloc, self.path.as_str(), self.file.sync_all())
    }
}

fn create(rt: &HostRuntime, path: &PathBuf) -> io::Result<File> {
    OpenOptions::new()
        .write(true)
        .create_new(true)
        .open(rt, path.as_path())
}

/// Writes slices, one behind another. The watch is told of the bytes.
pub fn write_slices<W: Write>(
    to: &mut W,
    slices: &[&[u8]],
    watch: Option<&Watch<'_>>,
) -> io::Result<()> {
    for slice in slices {
        write_and_tell(to, slice, watch)?;
    }
    Ok(())
}
