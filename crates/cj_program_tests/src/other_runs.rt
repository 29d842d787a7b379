//! Several runs in one directory.
use crate::telling::{holds, is_free, is_told};
use cj_host::DirShelf;
use cj_io::{PutError, Shelf};
use std::fs;
use std::panic::Expect;

#[test]
fn one_run_at_a_time_puts_outputs_into_a_directory(rt: HostRuntime) {
    let alloc = rt.alloc();
    fs::create_dir(&rt, "shared_here").expect(&rt, "no fault");
    let mut first = DirShelf::new(&rt, &rt, "shared_here");
    let mut second = DirShelf::new(&rt, &rt, "shared_here/");
    first.begin(alloc).expect(&rt, "no fault");
    assert_eq!(rt; second.begin(alloc), Err(PutError::Failed));
    assert!(rt;
        is_told(
            alloc,
            second.last_fault(),
            b"conj: shared_here/: another run is writing there\n"
        )
    );
    first
        .put(alloc, b"screen.report", b"of the first")
        .expect(&rt, "no fault");
    first.put(alloc, b"-", b"").expect(&rt, "no fault");
    assert_eq!(rt; second.begin(alloc), Err(PutError::Failed));
    drop(first);
    second.begin(alloc).expect(&rt, "no fault");
    assert!(rt; holds(&rt, "shared_here/screen.report", "of the first"));
    drop(second);
    fs::remove_file(&rt, "shared_here/screen.report").expect(&rt, "no fault");
    fs::remove_dir(&rt, "shared_here").expect(&rt, "nothing else was left");
}

#[test]
fn a_directory_that_cannot_be_held_is_no_fault_before_an_output(rt: HostRuntime) {
    let alloc = rt.alloc();
    let mut shelf = DirShelf::new(&rt, &rt, "missing_here");
    shelf.begin(alloc).expect(&rt, "no fault");
    assert_eq!(rt;
        shelf.put(alloc, b"screen.report", b"text"),
        Err(PutError::Failed)
    );
    assert!(rt;
        is_told(
            alloc,
            shelf.last_fault(),
            b"conj: missing_here/.screen.report.part: No such file or directory (os error 2)\n"
        )
    );
    assert!(rt; is_free(&rt, "missing_here"));
}
