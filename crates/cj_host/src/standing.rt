use crate::failure::{Failure, done_at};
use crate::holding::{Hold, hidden_name, inside, sync_directory, try_hold};
use crate::inputs::Inputs;
use crate::new_file::NewFile;
use std::alloc::Global;
use std::fs::File;
use std::io::ErrorKind;
use std::path::Path;
use std::{fs, io, mem};

/// A directory that is there. Each output is written under another name beside its own, and takes its own when it is whole.
#[derive(Drop)]
pub struct StandingDirectory<'a> {
    path: &'a str,
    /// What this run reads of its files.
    inputs: Inputs<'a>,
    /// The directory, open, from the beginning of the puts on.
    held: Option<File>,
}

/// An output that has not yet its name, and whether it is brought to the disk before.
#[derive(Drop)]
pub struct Part {
    pub part: NewFile,
    is_synced: bool,
}

impl<'a> StandingDirectory<'a> {
    pub fn new(path: &'a str, inputs: Inputs<'a>) -> Self {
        StandingDirectory {
            path,
            inputs,
            held: None,
        }
    }

    /// Holds the directory against other runs, where the system can.
    pub fn begin(&mut self, rt: &HostRuntime, alloc: Global) -> Result<(), Failure> {
        let path = inside(alloc, self.path)?;
        let held = fs::open(rt, path.as_path()).ok();
        if held.as_ref().map(try_hold) == Some(Hold::OtherRun) {
            return Err(Failure::other_run(alloc, self.path));
        }
        drop(mem::replace(&mut self.held, held));
        Ok(())
    }

    /// Begins an output, unless this run reads a file of its name.
    pub fn start(&self, rt: &HostRuntime, alloc: Global, name: &str) -> Result<Part, Failure> {
        self.need_no_input(rt, alloc, name)?;
        if name == FIRST {
            self.need_no_input(rt, alloc, SECOND)?;
        }
        let hidden = hidden_name(alloc, name)?;
        let directory = Path::new(self.path);
        let part = NewFile::make_anew(rt, alloc, directory.join(alloc, hidden.as_str())?)?;
        Ok(Part {
            part,
            is_synced: !name.ends_with(MESSAGE),
        })
    }

    /// Brings the names of all outputs to the disk.
    pub fn finish(&self, alloc: Global) -> Result<(), Failure> {
        match &self.held {
            Some(directory) => sync_directory(alloc, self.path, directory),
            None => Ok(()),
        }
    }

    /// Gives an output its name, when it is on the disk.
    pub fn keep(
        &self,
        rt: &HostRuntime,
        alloc: Global,
        name: &str,
        output: &Part,
    ) -> Result<(), Failure> {
        let whole = Path::new(self.path).join(alloc, name)?;
        if output.is_synced {
            output.part.sync(alloc)?;
        }
        if !output.part.is_there(rt) {
            return Err(Failure::other_run(alloc, self.path));
        }
        let named = fs::rename(rt, output.part.path.as_path(), whole.as_path());
        done_at(alloc, whole.as_str(), named)
    }

    fn need_no_input(&self, rt: &HostRuntime, alloc: Global, name: &str) -> Result<(), Failure> {
        if !self.inputs.have(name.as_bytes()) {
            return Ok(());
        }
        let path = Path::new(self.path).join(alloc, name)?;
        match fs::symlink_metadata(rt, path.as_path()) {
            Ok(found) if !found.is_dir() => {
                let reason = io::Error::new(ErrorKind::AlreadyExists, "is an input of this run");
                Err(Failure::at(alloc, path.as_str(), reason))
            }
            _ => Ok(()),
        }
    }
}

// The first two outputs of a screening: where the second may not be put, nor is the first.
const FIRST: &str = "screen.report";

const SECOND: &str = "screen.cert";

// How names of messages end. There may be very many, so they are not each brought to the disk.
const MESSAGE: &str = ".cdm";
