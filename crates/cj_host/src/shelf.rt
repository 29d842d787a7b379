ghost use Rattle.std.specs.Prelude.{◌≡◌, ◌≤◌, None, IsErrOf};
ghost use Rattle.cj_io.specs.Faults.{Rose};

use crate::failure::Failure;
use crate::inputs::Inputs;
use crate::new_directory::NewDirectory;
use crate::standing::StandingDirectory;
use crate::system_fault::SystemFault;
use crate::target::{Host, Target};
use crate::watch::Watch;
use cj_io::{PartSource, PutError, Shelf, StreamShelf};
use std::alloc::{AllocError, Global};
use std::thread::Threads;

/// Files that a run makes in a directory. The name `-` goes to standard output, and comes last.
///
/// A file is made under another name beside its own, never into one that was there, and takes its own name when it is whole and on the disk.
#[derive(Drop)]
pub struct DirShelf<'a, 'w, R> {
    host: Host<'a, 'w, R>,
    target: Target<'a>,
    faults: u64,
    refusals: u64,
    last_fault: Option<SystemFault>,
}

impl<'a, 'w, R: Threads> DirShelf<'a, 'w, R> {
    /// A shelf whose outputs become files of the directory with this path. Nothing is written yet.
    pub fn new(files: &'a HostRuntime, threads: &'a R, directory: &'a str) -> Self {
        DirShelf::beside(files, threads, directory, Inputs::none())
    }

    /// The same where the run reads files of the directory: no output takes the place of one of them.
    pub fn beside(
        files: &'a HostRuntime,
        threads: &'a R,
        directory: &'a str,
        inputs: Inputs<'a>,
    ) -> Self {
        let target = Target::Standing(StandingDirectory::new(directory, inputs));
        DirShelf::onto(files, threads, target)
    }

    /// A shelf whose outputs become the files of a directory that is made for them, under this path.
    pub fn in_new(files: &'a HostRuntime, threads: &'a R, path: &'a str) -> Self {
        DirShelf::onto(files, threads, Target::Made(NewDirectory::new(path)))
    }

    fn onto(files: &'a HostRuntime, threads: &'a R, target: Target<'a>) -> Self {
        DirShelf {
            host: Host {
                files,
                threads,
                watch: None,
            },
            target,
            faults: 0,
            refusals: 0,
            last_fault: None,
        }
    }

    /// The same shelf, of which somebody is told what is written.
    pub fn watched_by<'v>(self, watch: &'a Watch<'v>) -> DirShelf<'a, 'v, R>
        ensures faults { result.faults ≡ self.entry.faults }
        ensures refusals { result.refusals ≡ self.entry.refusals }
    {
        let Host { files, threads, .. } = self.host;
        DirShelf {
            host: Host {
                files,
                threads,
                watch: Some(watch),
            },
            target: self.target,
            faults: self.faults,
            refusals: self.refusals,
            last_fault: self.last_fault,
        }
    }

    /// Makes the file of an output whose bytes come in slices, one behind another.
    fn put_slices(&mut self, alloc: Global, name: &[u8], slices: &[&[u8]]) -> Result<(), PutError>
        ensures failed { IsErrOf result PutError.Failed → Rose self.old.faults self.new.faults }
        ensures memory { IsErrOf result PutError.Memory → self.new.faults ≡ self.old.faults }
        ensures later { self.old.faults ≤ self.new.faults }
    {
        let put = self.target.put(&self.host, alloc, name, slices);
        self.end(put)
    }

    /// How a call ends that came to this.
    fn end(&mut self, done: Result<(), Failure>) -> Result<(), PutError>
        ensures failed { IsErrOf result PutError.Failed → Rose self.old.faults self.new.faults }
        ensures memory { IsErrOf result PutError.Memory → self.new.faults ≡ self.old.faults }
        ensures later { self.old.faults ≤ self.new.faults }
        ensures refusals { self.new.refusals ≡ self.old.refusals }
    {
        match done {
            Ok(()) => Ok(()),
            Err(Failure::Memory) => Err(PutError::Memory),
            Err(Failure::Fault(fault)) => {
                self.faults = self.faults.saturating_add(1);
                self.last_fault = fault;
                Err(PutError::Failed)
            }
        }
    }

    /// Takes away what a run that failed has made of a new directory. Call it when the run has ended.
    pub fn close(&mut self) {
        self.target.abandon(self.host.files);
    }

    /// The last file that could not be written.
    pub fn last_fault(&self) -> Option<&SystemFault> {
        self.last_fault.as_ref()
    }
}

impl<R: Threads> Shelf for DirShelf<'_, '_, R> {
    ghost outputs = { λ s. None };

    ghost faults = { λ s. s.faults };

    ghost refusals = { λ s. s.refusals };

    fn begin(&mut self, alloc: Global) -> Result<(), PutError> {
        let begun = self.target.begin(self.host.files, alloc);
        let ended = self.end(begun);
        if ended == Err(PutError::Failed) {
            self.refusals = self.refusals.saturating_add(1);
        }
        ended
    }

    fn put(&mut self, alloc: Global, name: &[u8], bytes: &[u8]) -> Result<(), PutError> {
        self.put_slices(alloc, name, &[bytes])
    }

    fn put_parts(&mut self, alloc: Global, name: &[u8], parts: &[Vec<u8>]) -> Result<(), PutError> {
        let slices = slices_of(alloc, parts)?;
        self.put_slices(alloc, name, &slices)
    }
}

impl<R: Threads> StreamShelf for DirShelf<'_, '_, R> {
    fn put_made<W: Threads + Sync, M: PartSource>(
        &mut self,
        rt: &W,
        alloc: Global,
        name: &[u8],
        source: &mut M,
    ) -> Result<(), PutError> {
        // Where already the first parts want memory, no file is begun.
        let first = source.next_parts(rt, alloc)?;
        let put = self
            .target
            .put_made(&self.host, rt, alloc, name, first, source);
        self.end(put)
    }
}

fn slices_of<'a>(alloc: Global, parts: &'a [Vec<u8>]) -> Result<Vec<&'a [u8]>, AllocError> {
    let mut slices = Vec::with_capacity(alloc, parts.len())?;
    for part in parts {
        slices.push(part.as_slice())?;
    }
    Ok(slices)
}
