//! Folders and shelves that fail.
use crate::runs::{End, end_failing};
use crate::scenes::{COVERED, CROSSING, Content, Scene, base_text, copies, files_of};
use cj_io::{CalmShelf, FileBytes, MemShelf, StreamShelf};
use std::alloc::{AllocError, Global};
use std::panic::Expect;
use std::sync::Wait;
use std::thread::Threads;

/// How a run of these words over these files ends where these calls of the folder fail.
fn end_over<R: Threads + Wait + Sync, S: StreamShelf>(
    rt: &R,
    alloc: Global,
    words: &str,
    scene: Scene,
    calls: Vec<u64>,
    shelf: &mut S,
) -> Result<End, AllocError> {
    let files = files_of(alloc, scene)?;
    end_failing(rt, alloc, words, files, calls, shelf)
}

/// How often a run goes to its folder: for the list, and for the bytes and the end of each of two files.
const CALLS: u64 = 5;

/// How many outputs are put where this call fails, if the run then ends so.
fn put_where<R: Threads + Wait + Sync>(
    rt: &R,
    alloc: Global,
    words: &str,
    scene: Scene,
    call: u64,
    number: u8,
    line: &[u8],
) -> Result<Option<usize>, AllocError> {
    let mut shelf = CalmShelf::new(alloc);
    let calls = Vec::from_array(alloc, [call])?;
    let end = end_over(rt, alloc, words, scene, calls, &mut shelf)?;
    if end.number == number && end.line.as_slice() == line {
        Ok(Some(shelf.written().len()))
    } else {
        Ok(None)
    }
}

#[test]
fn nothing_is_put_where_the_folder_fails(rt: HostRuntime) {
    let alloc = rt.alloc();
    for (words, scene, outputs) in [
        ("screen .", CROSSING, 3),
        ("screen .", COVERED, 4),
        ("screen . --rtn", COVERED, 4),
    ] {
        for call in 1..CALLS + 1 {
            let put = put_where(&rt, alloc, words, scene, call, 4, b"conj: read fault\n");
            assert_eq!(rt; put.expect(&rt, "no fault"), Some(0));
        }
        let put = put_where(&rt, alloc, words, scene, CALLS + 1, 0, b"");
        assert_eq!(rt; put.expect(&rt, "no fault"), Some(outputs));
    }
}

/// A file that is read, and one that is refused.
const GOOD: Scene = &[("a.oem", Content::One(&[]))];

const BAD: Scene = &[(
    "a.oem",
    Content::One(&[(15, b"2025-01-01T00:00:00 7000 X 0 0 0 0")]),
)];

/// What two workers tell of this file and ninety-nine that are read, where this call of their folder fails.
fn told_by_two<R: Threads + Wait + Sync>(
    rt: &R,
    alloc: Global,
    first: Scene,
    call: u64,
) -> Result<Vec<u8>, AllocError> {
    let mut files = files_of(alloc, first)?;
    files.append(&mut copies(alloc, 99, &base_text(alloc)?)?)?;
    let calls = Vec::from_array(alloc, [call])?;
    let mut shelf = CalmShelf::new(alloc);
    let end = end_failing(rt, alloc, "screen . --workers 2", files, calls, &mut shelf)?;
    Ok(end.line)
}

/// The call for the bytes of the thirty-third file, which two workers read while the first thirty-two are parsed.
const NEXT_BATCH: u64 = 66;

#[test]
fn what_fails_while_files_are_parsed_is_told_behind_them(rt: HostRuntime) {
    let alloc = rt.alloc();
    let read = told_by_two(&rt, alloc, GOOD, NEXT_BATCH).expect(&rt, "no fault");
    assert!(rt; read.as_slice() == b"conj: read fault\n".as_slice());
    let refused = told_by_two(&rt, alloc, BAD, NEXT_BATCH).expect(&rt, "no fault");
    assert!(rt; refused.as_slice() == b"conj: a.oem: line 15: Number\n".as_slice());
}

/// Whether these are the first so many outputs, and then nothing or a front of the next one.
pub fn is_front(outputs: &[FileBytes], due: &[FileBytes], count: usize) -> bool {
    if outputs.len() < count || outputs.len() - count > 1 {
        return false;
    }
    for (place, (output, whole)) in outputs.iter().zip(due).enumerate() {
        let bytes = output.bytes.as_slice();
        if output.name != whole.name
            || !whole.bytes.as_slice().starts_with(bytes)
            || (place < count && output.bytes != whole.bytes)
        {
            return false;
        }
    }
    true
}

/// Whether the first so many outputs stand where the put behind them fails, and the run then ends so.
fn stand_whole<R: Threads + Wait + Sync>(
    rt: &R,
    alloc: Global,
    words: &str,
    scene: Scene,
    due: &[FileBytes],
    whole: usize,
    number: u8,
    line: &[u8],
) -> Result<bool, AllocError> {
    let puts = Vec::from_array(alloc, [(whole as u64).saturating_add(1)])?;
    let mut shelf = MemShelf::new(alloc, puts);
    let end = end_over(rt, alloc, words, scene, Vec::new(alloc), &mut shelf)?;
    Ok(end.number == number && end.line.as_slice() == line && is_front(shelf.written(), due, whole))
}

/// Whether a run of these words over these files puts so many outputs, and those before whichever put fails stand whole.
fn each_stands_whole<R: Threads + Wait + Sync>(
    rt: &R,
    alloc: Global,
    words: &str,
    scene: Scene,
    outputs: usize,
) -> Result<bool, AllocError> {
    let mut calm = CalmShelf::new(alloc);
    end_over(rt, alloc, words, scene, Vec::new(alloc), &mut calm)?;
    let due = calm.written();
    for whole in 0..outputs {
        if !stand_whole(
            rt,
            alloc,
            words,
            scene,
            due,
            whole,
            5,
            b"conj: write fault\n",
        )? {
            return Ok(false);
        }
    }
    Ok(due.len() == outputs && stand_whole(rt, alloc, words, scene, due, outputs, 0, b"")?)
}

#[test]
fn the_outputs_before_a_put_that_fails_stand_whole(rt: HostRuntime) {
    let alloc = rt.alloc();
    for (words, scene, outputs) in [
        ("screen .", CROSSING, 3),
        ("screen .", COVERED, 4),
        ("screen . --rtn", COVERED, 4),
    ] {
        assert!(rt; each_stands_whole(&rt, alloc, words, scene, outputs).expect(&rt, "no fault"));
    }
}
