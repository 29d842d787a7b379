use crate::failure::{Failure, done_at};
use crate::new_directory::NewDirectory;
use crate::new_file::{NewFile, write_slices};
use crate::standing::{Part, StandingDirectory};
use crate::streaming::write_all_made;
use crate::watch::Watch;
use cj_io::PartSource;
use std::alloc::Global;
use std::io;
use std::io::ErrorKind;
use std::thread::Threads;

/// The system: files by its runtime, and threads.
#[derive(Drop)]
pub struct Host<'a, 'w, R> {
    pub files: &'a HostRuntime,
    pub threads: &'a R,
    /// Who is told of the bytes that are written, where somebody is.
    pub watch: Option<&'a Watch<'w>>,
}

impl<R> Host<'_, '_, R> {
    /// Takes the line of progress away, which would stand among what is printed.
    fn make_way(&self) {
        if let Some(watch) = self.watch {
            watch.wipe();
        }
    }
}

/// Where outputs go.
#[derive(Drop)]
pub enum Target<'a> {
    /// Among the files of a directory.
    Standing(StandingDirectory<'a>),
    /// Into a directory that is made for them.
    Made(NewDirectory<'a>),
}

/// An output that is begun.
#[derive(Drop)]
enum Begun {
    /// It goes to standard output.
    Output,
    /// It takes the place of a file.
    Part(Part),
    /// It is a file of a new directory.
    File(NewFile),
}

// What standard output is called.
const OUTPUT: &str = "standard output";

impl Target<'_> {
    /// Makes ready for outputs, where no other run puts its own there.
    pub fn begin(&mut self, rt: &HostRuntime, alloc: Global) -> Result<(), Failure> {
        match self {
            Target::Standing(directory) => directory.begin(rt, alloc),
            Target::Made(directory) => directory.begin(rt, alloc),
        }
    }

    /// Puts an output whose bytes come in slices, one behind another.
    pub fn put<R: Threads>(
        &mut self,
        host: &Host<'_, '_, R>,
        alloc: Global,
        name: &[u8],
        slices: &[&[u8]],
    ) -> Result<(), Failure> {
        let name = name_of(alloc, name)?;
        let mut output = self.start(host, alloc, name)?;
        let written = output.write(host, alloc, slices);
        self.end(host, alloc, name, output, written)
    }

    /// Puts an output of these first parts and of what the source makes behind them.
    pub fn put_made<R: Threads, W: Threads + Sync, M: PartSource>(
        &mut self,
        host: &Host<'_, '_, R>,
        rt: &W,
        alloc: Global,
        name: &[u8],
        first: Vec<Vec<u8>>,
        source: &mut M,
    ) -> Result<(), Failure> {
        let name = name_of(alloc, name)?;
        let mut output = self.start(host, alloc, name)?;
        let written = output.write_made(host, rt, alloc, first, source);
        self.end(host, alloc, name, output, written)
    }

    /// Takes away what has not got its name.
    pub fn abandon(&mut self, rt: &HostRuntime) {
        match self {
            Target::Standing(_) => {}
            Target::Made(directory) => directory.abandon(rt),
        }
    }

    /// Begins an output. Standard output comes last: all outputs before it are then whole, and are brought to the disk.
    fn start<R: Threads>(
        &mut self,
        host: &Host<'_, '_, R>,
        alloc: Global,
        name: &str,
    ) -> Result<Begun, Failure> {
        if name == "-" {
            self.finish(host, alloc)?;
            return Ok(Begun::Output);
        }
        match self {
            Target::Standing(directory) => directory
                .start(host.files, alloc, name)
                .map(Begun::Part),
            Target::Made(directory) => directory.start(host.files, alloc, name).map(Begun::File),
        }
    }

    /// Ends an output that was written so. What is not whole is taken away again.
    fn end<R: Threads>(
        &mut self,
        host: &Host<'_, '_, R>,
        alloc: Global,
        name: &str,
        output: Begun,
        written: Result<(), Failure>,
    ) -> Result<(), Failure> {
        if written.is_err() {
            output.remove(host.files);
            drop(output);
            return written;
        }
        self.keep(host, alloc, name, output)
    }

    /// Keeps an output that is written.
    fn keep<R: Threads>(
        &mut self,
        host: &Host<'_, '_, R>,
        alloc: Global,
        name: &str,
        output: Begun,
    ) -> Result<(), Failure> {
        match (self, output) {
            (Target::Standing(directory), Begun::Part(part)) => {
                let kept = directory.keep(host.files, alloc, name, &part);
                if kept.is_err() {
                    part.part.remove(host.files);
                }
                kept
            }
            (Target::Made(directory), Begun::File(file)) => {
                directory.keep(host.threads, alloc, file)
            }
            _ => Ok(()),
        }
    }

    fn finish<R: Threads>(&mut self, host: &Host<'_, '_, R>, alloc: Global) -> Result<(), Failure> {
        match self {
            Target::Standing(directory) => directory.finish(alloc),
            Target::Made(directory) => directory.finish(host.files, host.threads, alloc),
        }
    }
}

impl Begun {
    fn write<R>(
        &mut self,
        host: &Host<'_, '_, R>,
        alloc: Global,
        slices: &[&[u8]],
    ) -> Result<(), Failure> {
        match self {
            Begun::Output => {
                host.make_way();
                let written = write_slices(&mut host.files.stdout(), slices, None);
                done_at(alloc, OUTPUT, written)
            }
            Begun::Part(output) => output.part.write(alloc, slices, host.watch),
            Begun::File(file) => file.write(alloc, slices, host.watch),
        }
    }

    fn write_made<R, W: Threads + Sync, M: PartSource>(
        &mut self,
        host: &Host<'_, '_, R>,
        rt: &W,
        alloc: Global,
        first: Vec<Vec<u8>>,
        source: &mut M,
    ) -> Result<(), Failure> {
        match self {
            Begun::Output => {
                host.make_way();
                let made = write_all_made(&mut host.files.stdout(), rt, alloc, &first, source);
                made.map_err(|error| error.at(alloc, OUTPUT))
            }
            Begun::Part(output) => output.part.write_made(rt, alloc, first, source, host.watch),
            Begun::File(file) => file.write_made(rt, alloc, first, source, host.watch),
        }
    }

    /// Takes away the file of an output that is not whole.
    fn remove(&self, rt: &HostRuntime) {
        match self {
            Begun::Output => {}
            Begun::Part(output) => output.part.remove(rt),
            Begun::File(file) => file.remove(rt),
        }
    }
}

fn name_of(alloc: Global, name: &[u8]) -> Result<&str, Failure> {
    str::from_utf8(name).map_err(|_| {
        let reason = io::Error::from(ErrorKind::InvalidFilename);
        Failure::at(alloc, "a piece", reason)
    })
}
