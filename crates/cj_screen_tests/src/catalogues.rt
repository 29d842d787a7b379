//! Catalogues that are written.
use crate::runs::{are_named, end_alone, file, output_of, run_at};
use cj_base::Tick;
use cj_io::{CalmShelf, FileBytes, MemShelf};
use std::alloc::{AllocError, Global};
use std::panic::Expect;
use std::sync::Wait;
use std::thread::Threads;

/// Whether a command line puts outputs of these names, and tells so much.
fn is_written<R: Threads + Wait + Sync>(
    rt: &R,
    alloc: Global,
    line: &str,
    names: &[&str],
    due: &[u8],
) -> Result<bool, AllocError> {
    let mut shelf = CalmShelf::new(alloc);
    let end = end_alone(rt, alloc, line, &mut shelf)?;
    let outputs = shelf.written();
    Ok(end.number == 0 && are_named(outputs, names) && output_of(outputs, b"-") == due)
}

#[test]
fn a_catalogue_is_written_file_by_file_and_then_counted(rt: HostRuntime) {
    let alloc = rt.alloc();
    let line = "generate . --seed 0 --objects 3 --minutes 1";
    let names = ["GEN00001.oem", "GEN00002.oem", "GEN00003.oem", "-"];
    assert!(rt; is_written(&rt, alloc, line, &names, b"GENERATED 3\n").expect(&rt, "no fault"));
    let line = "generate . --seed 0 --objects 1 --minutes 1";
    let names = ["GEN00001.oem", "-"];
    assert!(rt; is_written(&rt, alloc, line, &names, b"GENERATED 1\n").expect(&rt, "no fault"));
}

/// How the writing of two files ends over a shelf that fails at this put, and how many outputs stand then.
fn written_where<R: Threads + Wait + Sync>(
    rt: &R,
    alloc: Global,
    put: u64,
) -> Result<(u8, usize), AllocError> {
    let mut shelf = MemShelf::new(alloc, Vec::from_array(alloc, [put])?);
    let line = "generate . --objects 2 --minutes 1";
    let end = end_alone(rt, alloc, line, &mut shelf)?;
    Ok((end.number, shelf.written().len()))
}

#[test]
fn a_front_of_the_catalogue_stands_where_a_put_fails(rt: HostRuntime) {
    for whole in 0..3 {
        let ended = written_where(&rt, rt.alloc(), whole as u64 + 1).expect(&rt, "no fault");
        assert_eq!(rt; ended, (5, whole));
    }
}

/// A copy of the outputs but for the one for standard output.
pub fn files_of(alloc: Global, outputs: &[FileBytes]) -> Result<Vec<FileBytes>, AllocError> {
    let mut files = Vec::new(alloc);
    for output in outputs {
        let name = output.name.as_slice();
        if name != b"-".as_slice() {
            files.push(file(alloc, name, output.bytes.as_slice())?)?;
        }
    }
    Ok(files)
}

/// The files that a command line makes, of which each call of a folder fails.
pub fn made_by<R: Threads + Wait + Sync>(
    rt: &R,
    alloc: Global,
    line: &str,
) -> Result<Vec<FileBytes>, AllocError> {
    let mut shelf = CalmShelf::new(alloc);
    end_alone(rt, alloc, line, &mut shelf)?;
    files_of(alloc, shelf.written())
}

#[test]
fn a_catalogue_of_one_object_is_written_and_screened(rt: HostRuntime) {
    let alloc = rt.alloc();
    let files = made_by(&rt, alloc, "generate . --seed 0 --objects 1 --minutes 1").expect(
        &rt, "no fault",
    );
    let (end, shelf) = run_at(&rt, alloc, "screen .", files, Tick::FIRST).expect(&rt, "no fault");
    assert_eq!(rt; end.number, 0);
    let summary = output_of(shelf.written(), b"-");
    assert!(rt; summary.starts_with(b"OBJECTS 1\nPAIRS 0\n"));
}
