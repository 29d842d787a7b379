use crate::notice::{Notice, asked_notice};
use crate::paths::Paths;
use cj_status::Status;
use cj_words::{UsageFault, Word, places_of};
use std::alloc::{AllocError, Global};
use std::env;
use std::io::ErrorKind;

/// What the command line asks of the program.
#[derive(Drop)]
pub enum Request {
    /// To show a notice and end.
    Show(Notice),
    /// To run these words over the directories that they name.
    Run { words: Vec<Word>, paths: Paths },
}

/// Reads the command line. Words that are not UTF-8 are of no command.
pub fn read_request(rt: &HostRuntime) -> Result<Request, Status> {
    let words = read_words(rt)?;
    if let Some(notice) = asked_notice(&words) {
        return Ok(Request::Show(notice));
    }
    let paths = Paths::of(rt.alloc(), places_of(&words))?;
    Ok(Request::Run { words, paths })
}

/// The words of the command line, the program's name left out.
fn read_words(rt: &HostRuntime) -> Result<Vec<Word>, Status> {
    match env::args(rt) {
        Ok(args) => words_of(rt.alloc(), args).map_err(|_| Status::OutOfMemory),
        Err(error) if error.kind() == ErrorKind::OutOfMemory => Err(Status::OutOfMemory),
        Err(_) => Err(Status::Usage(UsageFault::Words)),
    }
}

fn words_of(alloc: Global, args: env::Args) -> Result<Vec<Word>, AllocError> {
    let mut words = Vec::new(alloc);
    for arg in args.skip(1) {
        words.push(Word::copy_of(alloc, arg.as_bytes())?)?;
    }
    Ok(words)
}
