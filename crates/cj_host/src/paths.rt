ghost use Rattle.std.specs.Prelude.{◌≡◌, IfOk, string_bytes};
ghost use Rattle.std.specs.Option.{option_copied, option_map};
ghost use Rattle.cj_host.specs.Paths.{plain_paths};
ghost use Rattle.cj_words.specs.Places.{plain_places};

use crate::folder::DirFolder;
use crate::inputs::Inputs;
use crate::shelf::DirShelf;
use cj_status::Status;
use cj_words::{Command, Places, UsageFault, Word, read_command};
use std::alloc::Global;
use std::thread::Threads;

/// The directories that a command line names, as paths.
#[derive(Drop)]
pub struct Paths {
    /// Of the files that are read.
    directory: String,
    /// Of the certificate that is read, and of the report, where it is another one.
    certificates: Option<String>,
    /// That is made for what is written, where it is not the first one.
    results: Option<String>,
}

impl Paths {
    /// Names that are not UTF-8 are of no command.
    pub fn of(alloc: Global, places: Places<'_>) -> Result<Paths, Status>
        ensures { IfOk result (λ paths. plain_paths paths ≡ plain_places places.entry) }
    {
        Ok(Paths {
            directory: path_of(alloc, places.directory)?,
            certificates: path_if(alloc, places.certificates)?,
            results: path_if(alloc, places.results)?,
        })
    }

    /// The files that a run of these words reads.
    pub fn folder<'a>(&'a self, rt: &'a HostRuntime, words: &'a [Word]) -> DirFolder<'a> {
        match (&self.certificates, outputs_of(words)) {
            (Some(other), Some(outputs)) => DirFolder::with_files_of(
                rt,
                self.directory.as_str(),
                other.as_str(),
                outputs.certificate,
                outputs.report,
            ),
            _ => DirFolder::new(rt, self.directory.as_str()),
        }
    }

    /// Where a run of these words puts its outputs.
    pub fn shelf<'a, R: Threads>(
        &'a self,
        rt: &'a HostRuntime,
        threads: &'a R,
        words: &'a [Word],
    ) -> DirShelf<'a, 'a, R> {
        match &self.results {
            Some(path) => DirShelf::in_new(rt, threads, path.as_str()),
            None => DirShelf::beside(rt, threads, self.directory.as_str(), Inputs::of(words)),
        }
    }
}

/// The names of outputs that are read.
#[derive(Clone, Copy)]
struct Outputs<'w> {
    certificate: &'w str,
    report: Option<&'w str>,
}

/// The certificate that is read, and the report, where one is named.
fn outputs_of(words: &[Word]) -> Option<Outputs<'_>> {
    match read_command(words) {
        Ok(Command::Check(checking)) | Ok(Command::Rewrite(checking)) => Some(Outputs {
            certificate: str::from_utf8(checking.certificate).ok()?,
            report: text_if(checking.report),
        }),
        _ => None,
    }
}

fn text_if(name: Option<&[u8]>) -> Option<&str> {
    str::from_utf8(name?).ok()
}

fn path_if(alloc: Global, name: Option<&[u8]>) -> Result<Option<String>, Status>
    ensures { IfOk result (λ path. option_map string_bytes path ≡ option_copied name.entry) }
{
    match name {
        Some(name) => Ok(Some(path_of(alloc, name)?)),
        None => Ok(None),
    }
}

fn path_of(alloc: Global, name: &[u8]) -> Result<String, Status>
    ensures { IfOk result (λ path. string_bytes path ≡ name.now) }
{
    let Ok(name) = str::from_utf8(name) else {
        return Err(Status::Usage(UsageFault::Words));
    };
    String::from_str(alloc, name).map_err(|_| Status::OutOfMemory)
}
