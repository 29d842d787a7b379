//! Directories that a run makes for its outputs.
use crate::telling::{holds, is_free, is_told};
use cj_host::DirShelf;
use cj_io::{MemSource, PutError, Shelf, StreamShelf};
use std::fs;
use std::os::unix::fs::symlink;
use std::panic::Expect;
use std::thread::Threads;

#[test]
fn a_new_directory_takes_its_name_when_all_is_put(rt: HostRuntime) {
    let alloc = rt.alloc();
    let mut shelf = DirShelf::in_new(&rt, &rt, "whole_new/");
    shelf.begin(alloc).expect(&rt, "no fault");
    shelf
        .put(alloc, b"screen.report", b"report")
        .expect(&rt, "no fault");
    shelf
        .put_made(
            &rt,
            alloc,
            b"screen.cert",
            &mut MemSource::new(b"abcdefghi", 2),
        )
        .expect(&rt, "no fault");
    assert!(rt; is_free(&rt, "whole_new"));
    assert!(rt; holds(&rt, ".whole_new.part/screen.report", "report"));
    shelf.put(alloc, b"-", b"").expect(&rt, "no fault");
    shelf.close();
    assert!(rt; is_free(&rt, ".whole_new.part"));
    assert!(rt; holds(&rt, "whole_new/screen.report", "report"));
    assert!(rt; holds(&rt, "whole_new/screen.cert", "abcdefghi"));
    fs::remove_dir_all(&rt, "whole_new").expect(&rt, "no fault");
}

#[test]
fn many_outputs_come_into_a_new_directory(rt: HostRuntime) {
    let alloc = rt.alloc();
    let mut shelf = DirShelf::in_new(&rt, &rt, "many_new");
    shelf.begin(alloc).expect(&rt, "no fault");
    for number in 0..200_u32 {
        let name = format!(in alloc; "{number}").expect(&rt, "memory");
        shelf
            .put(alloc, name.as_bytes(), b"piece")
            .expect(&rt, "no fault");
    }
    shelf.put(alloc, b"-", b"").expect(&rt, "no fault");
    assert!(rt; holds(&rt, "many_new/0", "piece"));
    assert!(rt; holds(&rt, "many_new/63", "piece"));
    assert!(rt; holds(&rt, "many_new/64", "piece"));
    assert!(rt; holds(&rt, "many_new/199", "piece"));
    fs::remove_dir_all(&rt, "many_new").expect(&rt, "no fault");
}

#[test]
fn a_run_that_fails_leaves_no_new_directory(rt: HostRuntime) {
    let alloc = rt.alloc();
    let mut shelf = DirShelf::in_new(&rt, &rt, "failed_new");
    shelf.begin(alloc).expect(&rt, "no fault");
    shelf
        .put(alloc, b"screen.report", b"report")
        .expect(&rt, "no fault");
    assert_eq!(rt;
        shelf.put(alloc, b"screen.report", b"again"),
        Err(PutError::Failed)
    );
    assert!(rt;
        is_told(
            alloc,
            shelf.last_fault(),
            b"conj: .failed_new.part/screen.report: File exists (os error 17)\n"
        )
    );
    shelf.close();
    assert!(rt; is_free(&rt, "failed_new"));
    assert!(rt; is_free(&rt, ".failed_new.part"));
}

#[test]
fn an_output_that_was_not_begun_is_put_nowhere(rt: HostRuntime) {
    let alloc = rt.alloc();
    fs::create_dir(&rt, "unbegun_here").expect(&rt, "no fault");
    let mut shelf = DirShelf::in_new(&rt, &rt, "unbegun_here");
    assert_eq!(rt;
        shelf.put(alloc, b"screen.report", b"report"),
        Err(PutError::Failed)
    );
    fs::remove_dir(&rt, "unbegun_here").expect(&rt, "nothing was put");
}

#[test]
fn a_name_that_is_taken_is_told_before_the_first_output(rt: HostRuntime) {
    let alloc = rt.alloc();
    fs::create_dir(&rt, "taken_new").expect(&rt, "no fault");
    fs::create_dir(&rt, "taken_new/directory").expect(&rt, "no fault");
    fs::write(&rt, "taken_new/file", "kept").expect(&rt, "no fault");
    symlink(&rt, "nowhere", "taken_new/link").expect(&rt, "no fault");
    assert!(rt;
        is_refused(
            &rt,
            &rt,
            "taken_new/directory",
            b"conj: taken_new/directory: exists already\n"
        )
    );
    assert!(rt;
        is_refused(
            &rt,
            &rt,
            "taken_new/directory/",
            b"conj: taken_new/directory/: exists already\n"
        )
    );
    assert!(rt;
        is_refused(
            &rt,
            &rt,
            "taken_new/file",
            b"conj: taken_new/file: exists already\n"
        )
    );
    assert!(rt;
        is_refused(
            &rt,
            &rt,
            "taken_new/link",
            b"conj: taken_new/link: exists already\n"
        )
    );
    assert!(rt; is_refused(&rt, &rt, ".", b"conj: .: exists already\n"));
    assert!(rt;
        is_refused(
            &rt,
            &rt,
            "taken_new/..",
            b"conj: taken_new/..: exists already\n"
        )
    );
    assert!(rt; is_refused(&rt, &rt, "/", b"conj: /: exists already\n"));
    assert!(rt;
        is_refused(
            &rt,
            &rt,
            "taken_new/file/new",
            b"conj: taken_new/file/new: Not a directory (os error 20)\n"
        )
    );
    assert!(rt;
        is_refused(
            &rt,
            &rt,
            "taken_new/missing/new",
            b"conj: taken_new/missing/.new.part: No such file or directory (os error 2)\n"
        )
    );
    fs::remove_dir(&rt, "taken_new/directory").expect(&rt, "nothing was put");
    fs::remove_file(&rt, "taken_new/file").expect(&rt, "no fault");
    fs::remove_file(&rt, "taken_new/link").expect(&rt, "no fault");
    fs::remove_dir(&rt, "taken_new").expect(&rt, "nothing else was left");
}

/// Whether no run may begin with a new directory of this path, and is told so.
fn is_refused<R: Threads>(rt: &HostRuntime, threads: &R, path: &str, line: &[u8]) -> bool {
    let mut shelf = DirShelf::in_new(rt, threads, path);
    let begun = shelf.begin(rt.alloc());
    let is_told = is_told(rt.alloc(), shelf.last_fault(), line);
    shelf.close();
    begun == Err(PutError::Failed) && is_told
}

#[test]
fn what_a_killed_run_left_of_a_new_directory_is_taken_away(rt: HostRuntime) {
    let alloc = rt.alloc();
    fs::create_dir(&rt, ".begun_new.part").expect(&rt, "no fault");
    fs::create_dir(&rt, ".begun_new.part/within").expect(&rt, "no fault");
    fs::write(&rt, ".begun_new.part/000002.cdm", "what a killed run left").expect(&rt, "no fault");
    let mut shelf = DirShelf::in_new(&rt, &rt, "begun_new");
    shelf.begin(alloc).expect(&rt, "no fault");
    shelf
        .put(alloc, b"screen.report", b"report")
        .expect(&rt, "no fault");
    shelf.put(alloc, b"-", b"").expect(&rt, "no fault");
    fs::remove_file(&rt, "begun_new/screen.report").expect(&rt, "no fault");
    fs::remove_dir(&rt, "begun_new").expect(&rt, "nothing else was left");
}

#[test]
fn a_link_in_the_place_of_a_new_directory_is_not_followed(rt: HostRuntime) {
    let alloc = rt.alloc();
    fs::create_dir(&rt, "other_new").expect(&rt, "no fault");
    fs::write(&rt, "other_new/kept", "kept").expect(&rt, "no fault");
    symlink(&rt, "other_new", ".linked_new.part").expect(&rt, "no fault");
    let mut shelf = DirShelf::in_new(&rt, &rt, "linked_new");
    shelf.begin(alloc).expect(&rt, "no fault");
    shelf
        .put(alloc, b"screen.report", b"report")
        .expect(&rt, "no fault");
    shelf.put(alloc, b"-", b"").expect(&rt, "no fault");
    assert!(rt; holds(&rt, "other_new/kept", "kept"));
    assert!(rt; is_free(&rt, "other_new/screen.report"));
    assert!(rt; holds(&rt, "linked_new/screen.report", "report"));
    fs::remove_dir_all(&rt, "other_new").expect(&rt, "no fault");
    fs::remove_dir_all(&rt, "linked_new").expect(&rt, "no fault");
}

#[test]
fn one_run_at_a_time_fills_a_new_directory(rt: HostRuntime) {
    let alloc = rt.alloc();
    let mut first = DirShelf::in_new(&rt, &rt, "twice_new");
    let mut second = DirShelf::in_new(&rt, &rt, "twice_new");
    first.begin(alloc).expect(&rt, "no fault");
    first
        .put(alloc, b"screen.report", b"of the first")
        .expect(&rt, "no fault");
    assert_eq!(rt; second.begin(alloc), Err(PutError::Failed));
    assert!(rt;
        is_told(
            alloc,
            second.last_fault(),
            b"conj: twice_new: another run is writing there\n"
        )
    );
    second.close();
    assert!(rt; holds(&rt, ".twice_new.part/screen.report", "of the first"));
    // As if the first run were killed.
    drop(first);
    second.begin(alloc).expect(&rt, "no fault");
    assert!(rt; is_free(&rt, ".twice_new.part/screen.report"));
    second.put(alloc, b"-", b"").expect(&rt, "no fault");
    fs::remove_dir(&rt, "twice_new").expect(&rt, "nothing was put");
}

#[test]
fn a_name_that_is_taken_meanwhile_is_left_as_it_is(rt: HostRuntime) {
    let alloc = rt.alloc();
    let mut shelf = DirShelf::in_new(&rt, &rt, "late_new");
    shelf.begin(alloc).expect(&rt, "no fault");
    shelf
        .put(alloc, b"screen.report", b"report")
        .expect(&rt, "no fault");
    fs::create_dir(&rt, "late_new").expect(&rt, "no fault");
    assert_eq!(rt; shelf.put(alloc, b"-", b""), Err(PutError::Failed));
    assert!(rt;
        is_told(
            alloc,
            shelf.last_fault(),
            b"conj: late_new: exists already\n"
        )
    );
    shelf.close();
    assert!(rt; is_free(&rt, ".late_new.part"));
    fs::remove_dir(&rt, "late_new").expect(&rt, "nothing was put");
}
