//! The line that says how far a run has come.
use cj_host::{Doing, Progress, progress_line};
use cj_io::Stage;
use std::alloc::{AllocError, Global};
use std::panic::Expect;

/// A run that is at this, with so many of so many parts done after so many milliseconds.
fn at(doing: Doing, done: u64, parts: u64, lasted: u64) -> Progress {
    Progress {
        doing,
        parts,
        done,
        halved: 71,
        closed: 85,
        bytes: 1_234_567,
        lasted,
    }
}

fn has_line(alloc: Global, progress: &Progress, line: &str) -> Result<bool, AllocError> {
    let told = progress_line(alloc, progress)?;
    Ok(told.as_str() == line)
}

#[test]
fn what_is_done_is_told_in_words(rt: HostRuntime) {
    let alloc = rt.alloc();
    for (doing, line) in [
        (Doing::Beginning, "conj: begins"),
        (Doing::At(Stage::Files), "conj: 3 of 8 files read"),
        (Doing::At(Stage::Objects), "conj: 3 of 8 objects measured"),
        (Doing::At(Stage::Minutes), "conj: 3 of 8 minutes searched"),
        (Doing::At(Stage::Cells), "conj: 71 cells halved, 85 closed"),
        (
            Doing::At(Stage::Encounters),
            "conj: 3 of 8 encounters searched",
        ),
        (Doing::Writing, "conj: 1234567 bytes written"),
    ] {
        assert!(rt; has_line(alloc, &at(doing, 3, 8, 999), line).expect(&rt, "no fault"));
    }
}

/// Three of eight parts in six seconds: the other five take ten. Where none is done, or all are, or the stage is young, nothing is told.
#[test]
fn what_is_left_is_told_by_the_clock(rt: HostRuntime) {
    let alloc = rt.alloc();
    let files = Doing::At(Stage::Files);
    for (progress, line) in [
        (at(files, 3, 8, 6000), "conj: 3 of 8 files read, 10 s left"),
        (
            at(files, 3, 8, 71_999),
            "conj: 3 of 8 files read, 119 s left",
        ),
        (
            at(files, 3, 8, 72_000),
            "conj: 3 of 8 files read, 2 min left",
        ),
        (at(files, 0, 8, 6000), "conj: 0 of 8 files read"),
        (at(files, 8, 8, 6000), "conj: 8 of 8 files read"),
        (at(files, 3, 8, 999), "conj: 3 of 8 files read"),
    ] {
        assert!(rt; has_line(alloc, &progress, line).expect(&rt, "no fault"));
    }
}
