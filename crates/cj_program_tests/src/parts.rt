//! What stands under the name of an output's part, or of an output, before the output is put.
use crate::telling::{holds, is_free, is_told};
use cj_host::DirShelf;
use cj_io::{PutError, Shelf};
use std::fs;
use std::os::unix::fs::symlink;
use std::panic::Expect;

#[test]
fn what_an_earlier_run_left_is_written_anew(rt: HostRuntime) {
    let alloc = rt.alloc();
    fs::create_dir(&rt, "left_here").expect(&rt, "no fault");
    fs::write(
        &rt,
        "left_here/.screen.report.part",
        "what a killed run left",
    )
    .expect(&rt, "no fault");
    fs::write(&rt, "left_here/screen.report", "an older report").expect(&rt, "no fault");
    let mut shelf = DirShelf::new(&rt, &rt, "left_here");
    shelf.begin(alloc).expect(&rt, "no fault");
    shelf
        .put(alloc, b"screen.report", b"text")
        .expect(&rt, "no fault");
    assert!(rt; holds(&rt, "left_here/screen.report", "text"));
    assert!(rt; is_free(&rt, "left_here/.screen.report.part"));
    fs::remove_dir_all(&rt, "left_here").expect(&rt, "no fault");
}

#[test]
fn a_link_under_the_name_of_a_part_is_not_followed(rt: HostRuntime) {
    let alloc = rt.alloc();
    fs::create_dir(&rt, "linked_here").expect(&rt, "no fault");
    fs::create_dir(&rt, "linked_here/within").expect(&rt, "no fault");
    fs::write(&rt, "linked_here/other", "kept").expect(&rt, "no fault");
    symlink(&rt, "other", "linked_here/.screen.report.part").expect(&rt, "no fault");
    fs::hard_link(&rt, "linked_here/other", "linked_here/.screen.cert.part").expect(
        &rt, "no fault",
    );
    symlink(&rt, "nowhere", "linked_here/.000001.cdm.part").expect(&rt, "no fault");
    symlink(&rt, "within", "linked_here/.000002.cdm.part").expect(&rt, "no fault");
    let mut shelf = DirShelf::new(&rt, &rt, "linked_here");
    shelf
        .put(alloc, b"screen.report", b"report")
        .expect(&rt, "no fault");
    shelf
        .put(alloc, b"screen.cert", b"certificate")
        .expect(&rt, "no fault");
    shelf
        .put(alloc, b"000001.cdm", b"first")
        .expect(&rt, "no fault");
    shelf
        .put(alloc, b"000002.cdm", b"second")
        .expect(&rt, "no fault");
    assert!(rt; holds(&rt, "linked_here/other", "kept"));
    assert!(rt; is_free(&rt, "linked_here/nowhere"));
    assert!(rt; holds(&rt, "linked_here/screen.report", "report"));
    assert!(rt; holds(&rt, "linked_here/screen.cert", "certificate"));
    assert!(rt; holds(&rt, "linked_here/000001.cdm", "first"));
    assert!(rt; holds(&rt, "linked_here/000002.cdm", "second"));
    fs::write(&rt, "linked_here/screen.cert", "another").expect(&rt, "no fault");
    assert!(rt; holds(&rt, "linked_here/other", "kept"));
    fs::remove_dir_all(&rt, "linked_here").expect(&rt, "no fault");
}

#[test]
fn a_link_under_the_name_of_an_output_is_replaced(rt: HostRuntime) {
    let alloc = rt.alloc();
    fs::create_dir(&rt, "replaced_here").expect(&rt, "no fault");
    fs::write(&rt, "replaced_here/other", "kept").expect(&rt, "no fault");
    symlink(&rt, "other", "replaced_here/screen.report").expect(&rt, "no fault");
    let mut shelf = DirShelf::new(&rt, &rt, "replaced_here");
    shelf
        .put(alloc, b"screen.report", b"report")
        .expect(&rt, "no fault");
    assert!(rt; holds(&rt, "replaced_here/other", "kept"));
    assert!(rt; holds(&rt, "replaced_here/screen.report", "report"));
    fs::remove_dir_all(&rt, "replaced_here").expect(&rt, "no fault");
}

#[test]
fn a_directory_under_the_name_of_a_part_is_told(rt: HostRuntime) {
    let alloc = rt.alloc();
    fs::create_dir(&rt, "parted_here").expect(&rt, "no fault");
    fs::create_dir(&rt, "parted_here/.screen.report.part").expect(&rt, "no fault");
    let mut shelf = DirShelf::new(&rt, &rt, "parted_here");
    assert_eq!(rt;
        shelf.put(alloc, b"screen.report", b"text"),
        Err(PutError::Failed)
    );
    assert!(rt;
        is_told(
            alloc,
            shelf.last_fault(),
            b"conj: parted_here/.screen.report.part: Is a directory (os error 21)\n"
        )
    );
    assert!(rt; is_free(&rt, "parted_here/screen.report"));
    fs::remove_dir_all(&rt, "parted_here").expect(&rt, "no fault");
}
