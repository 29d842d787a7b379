//! A shelf on which another run writes: it refuses this one before its first output.
ghost use Rattle.std.specs.Prelude.{Some};

use crate::runs::{End, certificate_of, end_failing, with_certificate};
use crate::scenes::{COVERED, Content, Scene, files_of};
use cj_io::{CalmShelf, FileBytes, PutError, Shelf, StreamShelf};
use std::alloc::{AllocError, Global};
use std::panic::Expect;
use std::sync::Wait;
use std::thread::Threads;

#[derive(Drop)]
struct TakenShelf {
    outputs: CalmShelf,
    refusals: u64,
}

impl TakenShelf {
    fn new(alloc: Global) -> Self {
        TakenShelf {
            outputs: CalmShelf::new(alloc),
            refusals: 0,
        }
    }
}

impl Shelf for TakenShelf {
    ghost outputs = { λ s. Some s.outputs };

    ghost faults = { λ s. s.refusals };

    ghost refusals = { λ s. s.refusals };

    fn begin(&mut self, _alloc: Global) -> Result<(), PutError> {
        self.refusals = self.refusals.saturating_add(1);
        Err(PutError::Failed)
    }

    fn put(&mut self, alloc: Global, name: &[u8], bytes: &[u8]) -> Result<(), PutError> {
        self.outputs.put(alloc, name, bytes)
    }
}

impl StreamShelf for TakenShelf {}

/// How a command line ends over these files and a shelf that refuses it, how often it was refused, and how many outputs were put.
fn end_refused<R: Threads + Wait + Sync>(
    rt: &R,
    alloc: Global,
    line: &str,
    files: Vec<FileBytes>,
) -> Result<(End, u64, usize), AllocError> {
    let mut shelf = TakenShelf::new(alloc);
    let end = end_failing(rt, alloc, line, files, Vec::new(alloc), &mut shelf)?;
    Ok((end, shelf.refusals, shelf.outputs.written().len()))
}

/// Whether a command line over these files is refused once, and puts nothing.
fn is_refused<R: Threads + Wait + Sync>(
    rt: &R,
    alloc: Global,
    line: &str,
    files: Vec<FileBytes>,
) -> Result<bool, AllocError> {
    let (end, refusals, outputs) = end_refused(rt, alloc, line, files)?;
    let told = end.number == 5 && end.line.as_slice() == b"conj: write fault\n".as_slice();
    Ok(told && refusals == 1 && outputs == 0)
}

/// The files of the crossing, and its certificate.
fn certified<R: Threads + Wait + Sync>(
    rt: &R,
    alloc: Global,
) -> Result<Vec<FileBytes>, AllocError> {
    let certificate = certificate_of(rt, alloc, "screen .", files_of(alloc, COVERED)?)?;
    with_certificate(alloc, files_of(alloc, COVERED)?, &certificate)
}

#[test]
fn nothing_is_put_where_another_run_writes(rt: HostRuntime) {
    let alloc = rt.alloc();
    let files = files_of(alloc, COVERED).expect(&rt, "no fault");
    assert!(rt; is_refused(&rt, alloc, "screen .", files).expect(&rt, "no fault"));
    let files = certified(&rt, alloc).expect(&rt, "no fault");
    assert!(rt; is_refused(&rt, alloc, "rewrite .", files).expect(&rt, "no fault"));
    let line = "generate . --objects 2 --minutes 1";
    assert!(rt; is_refused(&rt, alloc, line, Vec::new(alloc)).expect(&rt, "no fault"));
}

#[test]
fn too_many_leaves_are_found_behind_a_refusal(rt: HostRuntime) {
    let alloc = rt.alloc();
    let files = files_of(alloc, COVERED).expect(&rt, "no fault");
    assert!(rt; is_refused(&rt, alloc, "screen . --cells 1", files).expect(&rt, "no fault"));
}

#[test]
fn what_puts_no_file_is_not_refused(rt: HostRuntime) {
    let alloc = rt.alloc();
    let files = certified(&rt, alloc).expect(&rt, "no fault");
    let (end, refusals, outputs) = end_refused(&rt, alloc, "check .", files).expect(
        &rt, "no fault",
    );
    assert_eq!(rt; (end.number, refusals, outputs), (0, 0, 1));
    let line = "selfrun --objects 2 --minutes 1";
    let (end, refusals, outputs) = end_refused(&rt, alloc, line, Vec::new(alloc)).expect(
        &rt, "no fault",
    );
    assert_eq!(rt; (end.number, refusals, outputs), (0, 0, 1));
}

const BAD: Scene = &[("a.oem", Content::One(&[(15, b"no row")]))];

#[test]
fn what_is_wrong_with_words_and_files_is_told_before_a_refusal(rt: HostRuntime) {
    let alloc = rt.alloc();
    let files = files_of(alloc, BAD).expect(&rt, "no fault");
    let (end, refusals, _) = end_refused(&rt, alloc, "screen .", files).expect(&rt, "no fault");
    assert_eq!(rt; (end.number, refusals), (3, 0));
    let (end, refusals, _) = end_refused(&rt, alloc, "screen", Vec::new(alloc)).expect(
        &rt, "no fault",
    );
    assert_eq!(rt; (end.number, refusals), (2, 0));
}
