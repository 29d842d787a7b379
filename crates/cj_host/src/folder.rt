ghost use Rattle.std.specs.Prelude.{◌≡◌, ◌≤◌, ◌<◌, ◌^◌, length, None, IfOk, IsErrOf};
ghost use Rattle.cj_io.specs.Faults.{Rose};
ghost use Rattle.cj_io.specs.declared.folder.FolderError.{FolderError};

use crate::failure::Failure;
use crate::listing::{Elsewhere, ListedFile, list_files};
use crate::system_fault::SystemFault;
use cj_io::{Failed, Folder, FolderError, Name};
use std::alloc::{AllocError, Global};
use std::io::ErrorKind;
use std::os::unix::fs::FileExt;
use std::{fs, io};

/// The files of a directory. It opens nothing before its first call, and tells nothing of what they contain.
#[derive(Drop)]
pub struct DirFolder<'a> {
    rt: &'a HostRuntime,
    directory: &'a str,
    elsewhere: Option<Elsewhere<'a>>,
    files: Vec<ListedFile>,
    faults: u64,
    last_fault: Option<SystemFault>,
}

impl<'a> DirFolder<'a> {
    /// The files of the directory with this path. Nothing is opened yet.
    pub fn new(rt: &'a HostRuntime, directory: &'a str) -> Self {
        DirFolder::of(rt, directory, None)
    }

    /// The same, but that the file of this name is that of another directory, if it has one, and so is that of a second name, where one is given.
    pub fn with_files_of(
        rt: &'a HostRuntime,
        directory: &'a str,
        elsewhere: &'a str,
        name: &'a str,
        other: Option<&'a str>,
    ) -> Self {
        let elsewhere = Elsewhere {
            directory: elsewhere,
            name,
            other,
        };
        DirFolder::of(rt, directory, Some(elsewhere))
    }

    fn of(rt: &'a HostRuntime, directory: &'a str, elsewhere: Option<Elsewhere<'a>>) -> Self {
        DirFolder {
            rt,
            directory,
            elsewhere,
            files: Vec::new(rt.alloc()),
            faults: 0,
            last_fault: None,
        }
    }

    /// Keeps the files, and answers their names. Files that have no number of 32 bits are a failure.
    fn keep(&mut self, alloc: Global, files: Vec<ListedFile>) -> Result<Vec<Name>, FolderError>
        ensures failed { IsErrOf result FolderError.Failed → Rose self.old.faults self.new.faults }
        ensures count { IfOk result (λ names. length self.new.files.items ≡ length names.items) }
        ensures numbered { IfOk result (λ names. length names.items < 2 ^ 32) }
        ensures later { self.old.faults ≤ self.new.faults }
    {
        if files.len() > u32::MAX as usize {
            self.faults = self.faults.saturating_add(1);
            return Err(FolderError::Failed);
        }
        self.files = files;
        names_of(alloc, &self.files).map_err(FolderError::from)
    }

    /// Why the directory could not be listed.
    fn unlisted(&mut self, failure: Failure) -> FolderError
        ensures failed { result ≡ FolderError.Failed → Rose self.old.faults self.new.faults }
        ensures later { self.old.faults ≤ self.new.faults }
    {
        let Failure::Fault(fault) = failure else {
            return FolderError::Memory;
        };
        self.faults = self.faults.saturating_add(1);
        self.last_fault = fault;
        FolderError::Failed
    }

    /// The last file that could not be read, or the directory that could not be listed.
    pub fn last_fault(&self) -> Option<&SystemFault> {
        self.last_fault.as_ref()
    }
}

impl Folder for DirFolder<'_> {
    ghost files = { λ f. None };

    ghost count = { λ f. length f.files.items };

    ghost faults = { λ f. f.faults };

    fn names(&mut self, alloc: Global) -> Result<Vec<Name>, FolderError> {
        match list_files(self.rt, alloc, self.directory, self.elsewhere) {
            Ok(files) => self.keep(alloc, files),
            Err(failure) => Err(self.unlisted(failure)),
        }
    }

    fn read(&mut self, file: u32, at: u64, buf: &mut [u8]) -> Result<u32, Failed> {
        let most = buf.len().min(u32::MAX as usize);
        let file = &self.files[file as usize];
        match read_at(self.rt, file, at, &mut buf[..most]) {
            Ok(count) => Ok(count as u32),
            Err(error) => {
                self.faults = self.faults.saturating_add(1);
                self.last_fault = SystemFault::of(self.rt.alloc(), file.path(), error);
                Err(Failed)
            }
        }
    }
}

fn names_of(alloc: Global, files: &[ListedFile]) -> Result<Vec<Name>, AllocError>
    ensures { IfOk result (λ names. length names.items ≡ length files.now) }
{
    let mut names = Vec::with_capacity(alloc, files.len())?;
    for file in files {
        names.push(Name::copy_of(alloc, file.name().as_bytes())?)?;
    }
    Ok(names)
}

// Only a regular file is read: to open a pipe would wait for its writer.
fn read_at(rt: &HostRuntime, file: &ListedFile, at: u64, buf: &mut [u8]) -> io::Result<usize>
    ensures { IfOk result (λ count. count ≤ length buf.new) }
{
    if !fs::metadata(rt, file.path())?.is_file() {
        return Err(io::Error::new(ErrorKind::InvalidInput, "not a regular file"));
    }
    fs::open(rt, file.path())?.read_at(buf, at)
}
