//! The files of a directory.
use crate::failure::{Failure, done_at};
use std::alloc::Global;
use std::fs::DirEntry;
use std::io::ErrorKind;
use std::path::{Path, PathBuf};
use std::{fs, io};

/// One or two files of another directory, each of which stands for the one of its name.
#[derive(Clone, Copy)]
pub struct Elsewhere<'a> {
    pub directory: &'a str,
    pub name: &'a str,
    pub other: Option<&'a str>,
}

impl Elsewhere<'_> {
    fn have(&self, name: &str) -> bool {
        name == self.name || Some(name) == self.other
    }
}

/// A file that was listed, or that stands for one.
#[derive(Drop)]
pub struct ListedFile {
    path: PathBuf,
}

impl ListedFile {
    pub fn path(&self) -> &str {
        self.path.as_str()
    }

    /// What stands behind the last slash of its path.
    pub fn name(&self) -> &str {
        match self.path.as_str().rsplit_once('/') {
            Some((_, name)) => name,
            None => self.path.as_str(),
        }
    }
}

/// The files of a directory, in its order, but for those that stand elsewhere, which come last.
pub fn list_files(
    rt: &HostRuntime,
    alloc: Global,
    directory: &str,
    elsewhere: Option<Elsewhere<'_>>,
) -> Result<Vec<ListedFile>, Failure> {
    let mut files = Vec::new(alloc);
    for entry in listed(alloc, directory, fs::read_dir(rt, directory))? {
        let entry = listed(alloc, directory, entry)?;
        match elsewhere {
            Some(others) if others.have(entry.file_name()) => (),
            _ => add_file(alloc, &mut files, &entry)?,
        }
    }
    if let Some(others) = elsewhere {
        add_elsewhere(rt, alloc, &mut files, others)?;
    }
    Ok(files)
}

// All but the subdirectories, so that a broken link is a file that cannot be read and no object is missing silently.
fn add_file(alloc: Global, files: &mut Vec<ListedFile>, entry: &DirEntry) -> Result<(), Failure> {
    if !is_directory(alloc, entry)? {
        let path = entry.path().to_path_buf(alloc)?;
        files.push(ListedFile { path })?;
    }
    Ok(())
}

// What is gone since it was listed, as a part of another run that got its name, is no directory: whoever takes it cannot read it.
fn is_directory(alloc: Global, entry: &DirEntry) -> Result<bool, Failure> {
    match entry.file_type() {
        Ok(kind) => Ok(kind.is_dir()),
        Err(reason) if reason.kind() == ErrorKind::NotFound => Ok(false),
        Err(reason) => Err(Failure::of_call(alloc, entry.path().as_str(), reason)),
    }
}

// The other directory has to be there, and the files in it have not.
fn add_elsewhere(
    rt: &HostRuntime,
    alloc: Global,
    files: &mut Vec<ListedFile>,
    others: Elsewhere<'_>,
) -> Result<(), Failure> {
    let directory = others.directory;
    done_at(alloc, directory, fs::metadata(rt, directory))?;
    add_named(rt, alloc, files, directory, others.name)?;
    match others.other {
        Some(other) if other != others.name => add_named(rt, alloc, files, directory, other),
        _ => Ok(()),
    }
}

// The file of this name of the directory, where it has one.
fn add_named(
    rt: &HostRuntime,
    alloc: Global,
    files: &mut Vec<ListedFile>,
    directory: &str,
    name: &str,
) -> Result<(), Failure> {
    let path = Path::new(directory).join(alloc, name)?;
    match fs::symlink_metadata(rt, path.as_path()) {
        Ok(found) if found.is_dir() => Ok(()),
        Err(reason) if reason.kind() == ErrorKind::NotFound => Ok(()),
        Err(reason) => Err(Failure::at(alloc, path.as_str(), reason)),
        Ok(_) => {
            files.push(ListedFile { path })?;
            Ok(())
        }
    }
}

/// What a call on the directory or the file with this path came to.
fn listed<T>(alloc: Global, path: &str, done: io::Result<T>) -> Result<T, Failure> {
    match done {
        Ok(value) => Ok(value),
        Err(reason) => Err(Failure::of_call(alloc, path, reason)),
    }
}
