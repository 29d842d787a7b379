//! Runs over a directory of the host system.
use crate::runs::end_over;
use crate::scenes::{CROSSING, files_of};
use cj_host::{DirFolder, DirShelf, now};
use std::alloc::AllocError;
use std::fs;
use std::panic::Expect;
use std::sync::Wait;
use std::thread::Threads;

/// The exit status of a command line over a directory.
fn exit_of<R: Threads + Wait + Sync>(
    threads: &R,
    rt: &HostRuntime,
    line: &str,
    directory: &str,
) -> Result<u8, AllocError> {
    let mut folder = DirFolder::new(rt, directory);
    let mut shelf = DirShelf::new(rt, threads, directory);
    let end = end_over(threads, rt.alloc(), line, &mut folder, &mut shelf, now(rt))?;
    Ok(end.number)
}

#[test]
fn a_directory_is_screened_and_its_certificate_is_checked(rt: HostRuntime) {
    let files = files_of(rt.alloc(), CROSSING).expect(&rt, "no fault");
    assert_eq!(rt; files.len(), 2);
    fs::create_dir(&rt, "screened_here").expect(&rt, "no fault");
    fs::write(&rt, "screened_here/a.oem", files[0].bytes.as_slice()).expect(&rt, "no fault");
    fs::write(&rt, "screened_here/b.oem", files[1].bytes.as_slice()).expect(&rt, "no fault");
    assert_eq!(rt;
        exit_of(&rt, &rt, "screen screened_here", "screened_here").expect(&rt, "no fault"),
        0
    );
    let report = fs::read_to_string(&rt, "screened_here/screen.report").expect(&rt, "no fault");
    assert!(rt;
        report.ends_with("\nSPAN NEAR 2025-01-01T00:00:29.538120 2025-01-01T00:00:30.461880\nEND\n")
    );
    assert_eq!(rt;
        exit_of(&rt, &rt, "check screened_here", "screened_here").expect(&rt, "no fault"),
        0
    );
    fs::write(&rt, "screened_here/screen.cert", "CONJ-CERT 1\n").expect(&rt, "no fault");
    assert_eq!(rt;
        exit_of(&rt, &rt, "check screened_here", "screened_here").expect(&rt, "no fault"),
        1
    );
    fs::remove_dir_all(&rt, "screened_here").expect(&rt, "no fault");
}
