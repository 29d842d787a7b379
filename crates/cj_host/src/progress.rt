//! How far a run has come, as a line.
use cj_io::Stage;
use std::alloc::{AllocError, Global};

/// What a run is at.
#[derive(Clone, Copy, Debug, PartialEq, Eq)]
pub enum Doing {
    /// It has not told yet.
    Beginning,
    /// This stage.
    At(Stage),
    /// It writes its results.
    Writing,
}

/// How far a run has come.
#[derive(Clone, Copy, Debug, PartialEq, Eq)]
pub struct Progress {
    pub doing: Doing,
    /// How many parts the stage has.
    pub parts: u64,
    /// How many of them are done.
    pub done: u64,
    /// Cells that are halved.
    pub halved: u64,
    /// Cells that are leaves.
    pub closed: u64,
    /// Bytes of results that are written.
    pub bytes: u64,
    /// For how many milliseconds the run has been at this.
    pub lasted: u64,
}

/// The line that says how far a run has come, without an end.
pub fn progress_line(alloc: Global, progress: &Progress) -> Result<String, AllocError> {
    let Progress {
        parts,
        done,
        halved,
        closed,
        bytes,
        ..
    } = *progress;
    let left = left_text(alloc, seconds_left(progress))?;
    let left = left.as_str();
    match progress.doing {
        Doing::Beginning => format!(in alloc; "conj: begins"),
        Doing::At(Stage::Files) => format!(in alloc; "conj: {done} of {parts} files read{left}"),
        Doing::At(Stage::Objects) => {
            format!(in alloc; "conj: {done} of {parts} objects measured{left}")
        }
        Doing::At(Stage::Minutes) => {
            format!(in alloc; "conj: {done} of {parts} minutes searched{left}")
        }
        Doing::At(Stage::Cells) => {
            format!(in alloc; "conj: {halved} cells halved, {closed} closed{left}")
        }
        Doing::At(Stage::Encounters) => {
            format!(in alloc; "conj: {done} of {parts} encounters searched{left}")
        }
        Doing::Writing => format!(in alloc; "conj: {bytes} bytes written"),
    }
}

/// How many seconds the rest of the stage takes at the pace of its done parts. It is not told in the first second.
fn seconds_left(progress: &Progress) -> Option<u64> {
    let left = progress.parts.saturating_sub(progress.done);
    if progress.done == 0 || left == 0 || progress.lasted < 1000 {
        return None;
    }
    Some(progress.lasted.saturating_mul(left) / progress.done / 1000)
}

/// From so many seconds on what is left is told in minutes.
const MANY_SECONDS: u64 = 120;

fn left_text(alloc: Global, seconds: Option<u64>) -> Result<String, AllocError> {
    match seconds {
        None => String::from_str(alloc, ""),
        Some(seconds) if seconds < MANY_SECONDS => format!(in alloc; ", {seconds} s left"),
        Some(seconds) => {
            let minutes = seconds / 60;
            format!(in alloc; ", {minutes} min left")
        }
    }
}
