//! Made-up catalogues that are screened in memory.
use crate::catalogues::made_by;
use crate::runs::{end_alone, output_of, told};
use cj_io::{CalmShelf, MemShelf};
use std::alloc::{AllocError, Global};
use std::panic::Expect;
use std::sync::Wait;
use std::thread::Threads;

/// What is told of the files of a made-up catalogue.
fn summary_of_files<R: Threads + Wait + Sync>(
    rt: &R,
    alloc: Global,
    options: &str,
) -> Result<Vec<u8>, AllocError> {
    let line = format!(in alloc; "generate . {options}")?;
    let files = made_by(rt, alloc, line.as_str())?;
    told(rt, alloc, "screen . --threshold 1000000", files)
}

/// What is told where the catalogue is screened in memory. Nothing else is put.
fn told_in_memory<R: Threads + Wait + Sync>(
    rt: &R,
    alloc: Global,
    options: &str,
) -> Result<Vec<u8>, AllocError> {
    let mut shelf = CalmShelf::new(alloc);
    let line = format!(in alloc; "selfrun {options} --threshold 1000000")?;
    let end = end_alone(rt, alloc, line.as_str(), &mut shelf)?;
    let outputs = shelf.written();
    if end.number != 0 || outputs.len() != 1 {
        return Ok(end.line);
    }
    Vec::from_slice(alloc, output_of(outputs, b"-"))
}

#[test]
fn a_catalogue_in_memory_gives_the_summary_of_its_files(rt: HostRuntime) {
    let alloc = rt.alloc();
    let options = "--seed 7 --objects 5 --minutes 3";
    let summary = summary_of_files(&rt, alloc, options).expect(&rt, "no fault");
    let text = told_in_memory(&rt, alloc, options).expect(&rt, "no fault");
    assert!(rt; text.starts_with(&summary));
    assert!(rt; text.starts_with(b"OBJECTS 5\nPAIRS 10\n"));
    assert!(rt; text.ends_with(b"\nCHECK ACCEPTED\n"));
}

/// What a selfrun of fifty objects over two hours tells, which the program's stored run with four workers tells too.
const SELFRUN: &[u8] = b"OBJECTS 50
PAIRS 1225
PARTED 924
TOUCHING 54
ROOTS 54
SPLITS 371
LEAVES 425
FAR 235
NEAR 184
UNDECIDED 6
ENCOUNTERS 8
MESSAGES 8
CHECK ACCEPTED
";

#[test]
fn one_worker_tells_of_a_selfrun_what_four_do(rt: HostRuntime) {
    let mut shelf = CalmShelf::new(rt.alloc());
    let line = "selfrun --objects 50 --minutes 120";
    let end = end_alone(&rt, rt.alloc(), line, &mut shelf).expect(&rt, "no fault");
    assert_eq!(rt; end.number, 0);
    assert!(rt; output_of(shelf.written(), b"-") == SELFRUN);
}

#[test]
fn a_limit_ends_it(rt: HostRuntime) {
    let mut shelf = CalmShelf::new(rt.alloc());
    let line = "selfrun --objects 10 --minutes 60 --threshold 1000000 --cells 1";
    let end = end_alone(&rt, rt.alloc(), line, &mut shelf).expect(&rt, "no fault");
    assert!(rt; end.line.as_slice() == b"conj: limit: Cells 1\n".as_slice());
    assert_eq!(rt; shelf.written().len(), 0);
}

#[test]
fn a_failed_put_ends_it(rt: HostRuntime) {
    let calls = Vec::from_array(rt.alloc(), [1]).expect(&rt, "no fault");
    let mut shelf = MemShelf::new(rt.alloc(), calls);
    let line = "selfrun --objects 1 --minutes 1";
    let end = end_alone(&rt, rt.alloc(), line, &mut shelf).expect(&rt, "no fault");
    assert_eq!(rt; end.number, 5);
    assert_eq!(rt; shelf.written().len(), 0);
}
