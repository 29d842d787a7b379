use crate::failure::{Failure, done_at};
use crate::holding::{Hold, hidden_name, inside, is_at, sync_directory, try_hold};
use std::alloc::Global;
use std::fs::File;
use std::io::ErrorKind;
use std::path::{Path, PathBuf};
use std::{fs, io};

/// The path of a directory that is made, and that beside it under which it is filled.
#[derive(Drop)]
pub struct NewPath<'a> {
    /// As it was asked for.
    shown: &'a str,
    whole: PathBuf,
    part: PathBuf,
}

impl<'a> NewPath<'a> {
    /// A path that ends with no name is that of something that is there, if it is one.
    pub fn of(rt: &HostRuntime, alloc: Global, shown: &'a str) -> Result<Self, Failure> {
        match Path::new(shown).file_name() {
            Some(name) => NewPath::named(alloc, shown, name),
            None => Err(unnamed(rt, alloc, shown)),
        }
    }

    fn named(alloc: Global, shown: &'a str, name: &str) -> Result<Self, Failure> {
        let hidden = hidden_name(alloc, name)?;
        let path = Path::new(shown);
        let part = path.with_file_name(alloc, hidden.as_str())?;
        let whole = path.with_file_name(alloc, name)?;
        Ok(NewPath { shown, whole, part })
    }

    /// Where the directory is filled.
    pub fn part(&self) -> Path<'_> {
        self.part.as_path()
    }

    /// A fault where something has the directory's name, be it a link that leads nowhere.
    pub fn need_free(&self, rt: &HostRuntime, alloc: Global) -> Result<(), Failure> {
        match fs::symlink_metadata(rt, self.whole.as_path()) {
            Ok(_) => Err(exists(alloc, self.shown)),
            Err(reason) => free_unless(alloc, self.shown, reason),
        }
    }

    /// Makes the directory that is filled, and holds it where the system can.
    pub fn make(&self, rt: &HostRuntime, alloc: Global) -> Result<File, Failure> {
        self.need_free(rt, alloc)?;
        self.create(rt, alloc)?;
        let directory = self.open(rt, alloc)?;
        self.need_hold(rt, alloc, &directory)?;
        Ok(directory)
    }

    fn create(&self, rt: &HostRuntime, alloc: Global) -> Result<(), Failure> {
        let made = fs::create_dir(rt, self.part());
        if !is_taken(&made) {
            return self.at_part(alloc, made);
        }
        self.clear(rt, alloc)?;
        self.at_part(alloc, fs::create_dir(rt, self.part()))
    }

    // Another run that held the directory until now may have given it its name, or taken it away.
    fn need_hold(&self, rt: &HostRuntime, alloc: Global, directory: &File) -> Result<(), Failure> {
        if try_hold(directory) != Hold::OtherRun && self.leads_to(rt, directory) {
            let free = self.need_free(rt, alloc);
            if free.is_err() {
                let _ = fs::remove_dir(rt, self.part());
            }
            return free;
        }
        self.need_free(rt, alloc)?;
        Err(Failure::other_run(alloc, self.shown))
    }

    /// Takes away what an earlier run left under the name of the part.
    fn clear(&self, rt: &HostRuntime, alloc: Global) -> Result<(), Failure> {
        let left = fs::symlink_metadata(rt, self.part());
        if self.at_part_there(rt, alloc, left)?.is_dir() {
            let directory = self.open(rt, alloc)?;
            self.clear_directory(rt, alloc, &directory)
        } else {
            let removed = fs::remove_file(rt, self.part());
            self.at_part_there(rt, alloc, removed)
        }
    }

    // It is taken away only where no run fills it.
    fn clear_directory(
        &self,
        rt: &HostRuntime,
        alloc: Global,
        directory: &File,
    ) -> Result<(), Failure> {
        match try_hold(directory) {
            Hold::Held if self.leads_to(rt, directory) => self.remove(rt, alloc),
            Hold::Unknown => Err(Failure::at(alloc, self.part.as_str(), unknown())),
            _ => Err(Failure::other_run(alloc, self.shown)),
        }
    }

    /// Takes away the directory that is filled, with what is in it.
    pub fn remove(&self, rt: &HostRuntime, alloc: Global) -> Result<(), Failure> {
        match fs::remove_dir_all(rt, self.part()) {
            Ok(()) => Ok(()),
            Err(reason) => Err(Failure::of_call(alloc, self.part.as_str(), reason)),
        }
    }

    fn open(&self, rt: &HostRuntime, alloc: Global) -> Result<File, Failure> {
        let path = inside(alloc, self.part.as_str())?;
        let opened = fs::open(rt, path.as_path());
        self.at_part_there(rt, alloc, opened)
    }

    /// Whether this open directory is the one that is filled.
    pub fn leads_to(&self, rt: &HostRuntime, directory: &File) -> bool {
        is_at(rt, self.part(), directory)
    }

    /// Gives the directory its name.
    pub fn take_name(&self, rt: &HostRuntime, alloc: Global) -> Result<(), Failure> {
        self.need_free(rt, alloc)?;
        let named = fs::rename(rt, self.part(), self.whole.as_path());
        done_at(alloc, self.shown, named)
    }

    /// Brings the directory's name to the disk.
    pub fn sync_parent(&self, rt: &HostRuntime, alloc: Global) -> Result<(), Failure> {
        let parent = self.whole.as_path().parent().unwrap_or(Path::new(""));
        let path = inside(alloc, parent.as_str())?;
        match fs::open(rt, path.as_path()) {
            Ok(directory) => sync_directory(alloc, path.as_str(), &directory),
            Err(_) => Ok(()),
        }
    }

    // What was there a moment before and is not there any more, another run has given its name, or taken away.
    fn at_part_there<T>(
        &self,
        rt: &HostRuntime,
        alloc: Global,
        done: io::Result<T>,
    ) -> Result<T, Failure> {
        match done {
            Err(reason) if reason.kind() == ErrorKind::NotFound => {
                self.need_free(rt, alloc)?;
                Err(Failure::other_run(alloc, self.shown))
            }
            done => self.at_part(alloc, done),
        }
    }

    fn at_part<T>(&self, alloc: Global, done: io::Result<T>) -> Result<T, Failure> {
        done_at(alloc, self.part.as_str(), done)
    }
}

fn is_taken(made: &io::Result<()>) -> bool {
    match made {
        Ok(()) => false,
        Err(reason) => reason.kind() == ErrorKind::AlreadyExists,
    }
}

// What a path is that was asked for and not found.
fn free_unless(alloc: Global, path: &str, reason: io::Error) -> Result<(), Failure> {
    if reason.kind() == ErrorKind::NotFound {
        return Ok(());
    }
    Err(Failure::at(alloc, path, reason))
}

// Of a path that ends with no name: `.`, `..` and `/`.
fn unnamed(rt: &HostRuntime, alloc: Global, path: &str) -> Failure {
    match fs::symlink_metadata(rt, path) {
        Ok(_) => exists(alloc, path),
        Err(reason) => Failure::at(alloc, path, reason),
    }
}

fn exists(alloc: Global, path: &str) -> Failure {
    let reason = io::Error::new(ErrorKind::AlreadyExists, "exists already");
    Failure::at(alloc, path, reason)
}

fn unknown() -> io::Error {
    io::Error::new(ErrorKind::Unsupported, "another run may be writing there")
}
