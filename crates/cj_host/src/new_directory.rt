use crate::failure::Failure;
use crate::holding::sync_directory;
use crate::new_file::NewFile;
use crate::new_path::NewPath;
use std::alloc::Global;
use std::fs::File;
use std::io::ErrorKind;
use std::thread::{Threads, join_mut};
use std::{fs, io};

/// A directory that this run makes for its outputs. It is filled under another name beside its own, and takes its own when all that is in it
/// is on the disk.
#[derive(Drop)]
pub struct NewDirectory<'a> {
    path: &'a str,
    filling: Option<Filling<'a>>,
}

/// A directory that is being filled.
#[derive(Drop)]
struct Filling<'a> {
    path: NewPath<'a>,
    /// The directory, open. No other run fills it until this is dropped.
    held: File,
    /// The files that were written last and are not yet brought to the disk.
    waiting: Vec<Waiting>,
}

/// A file that is written, and what became of bringing it to the disk.
#[derive(Drop)]
struct Waiting {
    made: NewFile,
    synced: io::Result<()>,
}

// How many threads bring files to the disk, and how many files wait for them at most.
const THREADS: usize = 8;

const MOST_WAITING: usize = 64;

impl<'a> NewDirectory<'a> {
    pub fn new(path: &'a str) -> Self {
        NewDirectory {
            path,
            filling: None,
        }
    }

    /// Makes the directory that is filled, and holds it against other runs. What an earlier run left there is taken away.
    ///
    /// # Errors
    ///
    /// A fault where something has its name already, or where another run fills it.
    pub fn begin(&mut self, rt: &HostRuntime, alloc: Global) -> Result<(), Failure> {
        let path = NewPath::of(rt, alloc, self.path)?;
        match path.make(rt, alloc) {
            Ok(held) => {
                let waiting = Vec::new(alloc);
                drop(
                    self.filling.replace(Filling {
                        path,
                        held,
                        waiting,
                    }),
                );
                Ok(())
            }
            Err(failure) => Err(failure),
        }
    }

    /// Begins an output.
    pub fn start(&self, rt: &HostRuntime, alloc: Global, name: &str) -> Result<NewFile, Failure> {
        match &self.filling {
            Some(filling) => NewFile::make(rt, alloc, filling.path.part().join(alloc, name)?),
            None => {
                let reason = io::Error::new(ErrorKind::NotFound, "is not begun");
                Err(Failure::at(alloc, self.path, reason))
            }
        }
    }

    /// Keeps an output that was written.
    pub fn keep<R: Threads>(
        &mut self,
        threads: &R,
        alloc: Global,
        output: NewFile,
    ) -> Result<(), Failure> {
        match &mut self.filling {
            Some(filling) => filling.keep(threads, alloc, output),
            None => Ok(()),
        }
    }

    /// Brings all outputs to the disk, and gives the directory its name.
    pub fn finish<R: Threads>(
        &mut self,
        rt: &HostRuntime,
        threads: &R,
        alloc: Global,
    ) -> Result<(), Failure> {
        let named = match &mut self.filling {
            Some(filling) => filling.take_name(rt, threads, alloc),
            None => Ok(()),
        };
        if named.is_ok() {
            drop(self.filling.take());
        }
        named
    }

    /// Takes the directory away again that has not got its name.
    pub fn abandon(&mut self, rt: &HostRuntime) {
        if let Some(filling) = &self.filling {
            filling.remove(rt);
        }
        drop(self.filling.take());
    }
}

impl Filling<'_> {
    /// Keeps a file that is to be brought to the disk.
    fn keep<R: Threads>(
        &mut self,
        threads: &R,
        alloc: Global,
        made: NewFile,
    ) -> Result<(), Failure> {
        let synced = Ok(());
        self.waiting.push(Waiting { made, synced })?;
        if self.waiting.len() < MOST_WAITING {
            return Ok(());
        }
        self.sync(threads, alloc)
    }

    /// Brings the files that wait to the disk.
    fn sync<R: Threads>(&mut self, threads: &R, alloc: Global) -> Result<(), Failure> {
        let half = self.waiting.len() / 2;
        let (front, back) = self.waiting.split_at_mut(half);
        sync_both(threads, front, back);
        let mut synced = Ok(());
        for waiting in &self.waiting {
            if let Err(reason) = &waiting.synced {
                synced = Err(Failure::at(alloc, waiting.made.path.as_str(), *reason));
            }
        }
        self.waiting.clear();
        synced
    }

    fn take_name<R: Threads>(
        &mut self,
        rt: &HostRuntime,
        threads: &R,
        alloc: Global,
    ) -> Result<(), Failure> {
        self.sync(threads, alloc)?;
        sync_directory(alloc, self.path.part().as_str(), &self.held)?;
        self.path.take_name(rt, alloc)?;
        self.path.sync_parent(rt, alloc)
    }

    /// Takes the directory away, where it still is under the name of its part.
    fn remove(&self, rt: &HostRuntime) {
        if self.path.leads_to(rt, &self.held) {
            let _ = self.path.remove(rt, rt.alloc());
        }
    }
}

/// Brings files to the disk, by two threads.
fn sync_both<R: Threads>(threads: &R, front: &mut [Waiting], back: &mut [Waiting]) {
    let mut sync_front = || sync_all(front);
    let mut sync_back = || sync_all(back);
    join_mut(threads, &mut sync_front, &mut sync_back);
}

fn sync_all(files: &mut [Waiting]) {
    for waiting in files {
        waiting.synced = waiting.made.file.sync_all();
    }
}
