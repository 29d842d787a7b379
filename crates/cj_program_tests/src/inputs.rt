//! What a run reads, and what it does not write over.
use crate::telling::{holds, is_free, is_told};
use cj_host::{DirFolder, DirShelf, Inputs};
use cj_io::{Folder, FolderError, PutError, Shelf, read_whole};
use cj_words::Word;
use std::alloc::{AllocError, Global};
use std::fs;
use std::panic::Expect;

/// The words of a line, with a blank between them.
fn words_of(alloc: Global, line: &str) -> Result<Vec<Word>, AllocError> {
    let mut words = Vec::new(alloc);
    for word in line.split(' ') {
        words.push(Word::copy_of(alloc, word.as_bytes())?)?;
    }
    Ok(words)
}

#[test]
fn a_run_reads_the_files_with_its_suffix_and_that_of_sizes(rt: HostRuntime) {
    let words = words_of(rt.alloc(), "screen d --sizes screen.report --suffix .cdm").expect(
        &rt, "memory",
    );
    let inputs = Inputs::of(&words);
    assert!(rt; inputs.have(b"screen.report"));
    assert!(rt; inputs.have(b"000001.cdm"));
    assert!(rt; !inputs.have(b"screen.cert"));
    assert!(rt; !inputs.have(b"a.oem"));
    let words = words_of(rt.alloc(), "rewrite d --cert other").expect(&rt, "memory");
    let inputs = Inputs::of(&words);
    assert!(rt; inputs.have(b"a.oem"));
    assert!(rt; !inputs.have(b"oem"));
    assert!(rt; !inputs.have(b"screen.cert2"));
    let words = words_of(rt.alloc(), "thin d --suffix .thin").expect(&rt, "memory");
    let inputs = Inputs::of(&words);
    assert!(rt; inputs.have(b"a.oem.thin"));
    assert!(rt; !inputs.have(b"a.oem"));
    assert!(rt; !inputs.have(b"screen.report"));
    let words = words_of(
        rt.alloc(),
        "rescreen d --from 2025-01-01T00:00:00 --to 2025-01-01T00:00:00",
    )
    .expect(&rt, "memory");
    let inputs = Inputs::of(&words);
    assert!(rt; inputs.have(b"a.oem"));
    assert!(rt; inputs.have(b"a.oem.new"));
    assert!(rt; !inputs.have(b"screen.report"));
    let words = words_of(rt.alloc(), "check d --update .cert").expect(&rt, "memory");
    assert!(rt; Inputs::of(&words).have(b"a.oem.cert"));
    let words = words_of(rt.alloc(), "generate d --seed 3").expect(&rt, "memory");
    assert!(rt; !Inputs::of(&words).have(b"GEN00001.oem"));
    let words = words_of(rt.alloc(), "screen d --sizes").expect(&rt, "memory");
    assert!(rt; !Inputs::of(&words).have(b"a.oem"));
}

#[test]
fn a_file_that_is_read_is_not_written_over(rt: HostRuntime) {
    let alloc = rt.alloc();
    fs::create_dir(&rt, "inputs_here").expect(&rt, "no fault");
    fs::write(&rt, "inputs_here/screen.report", "sizes").expect(&rt, "no fault");
    fs::write(&rt, "inputs_here/000002.cdm", "ephemeris").expect(&rt, "no fault");
    let words = words_of(
        alloc,
        "screen inputs_here --sizes screen.report --suffix .cdm",
    )
    .expect(&rt, "memory");
    let mut shelf = DirShelf::beside(&rt, &rt, "inputs_here", Inputs::of(&words));
    shelf.begin(alloc).expect(&rt, "no fault");
    assert_eq!(rt;
        shelf.put(alloc, b"screen.report", b"report"),
        Err(PutError::Failed)
    );
    assert!(rt;
        is_told(
            alloc,
            shelf.last_fault(),
            b"conj: inputs_here/screen.report: is an input of this run\n"
        )
    );
    assert!(rt; holds(&rt, "inputs_here/screen.report", "sizes"));
    shelf
        .put(alloc, b"000001.cdm", b"first")
        .expect(&rt, "no fault");
    assert_eq!(rt;
        shelf.put(alloc, b"000002.cdm", b"second"),
        Err(PutError::Failed)
    );
    assert!(rt;
        is_told(
            alloc,
            shelf.last_fault(),
            b"conj: inputs_here/000002.cdm: is an input of this run\n"
        )
    );
    assert!(rt; holds(&rt, "inputs_here/000002.cdm", "ephemeris"));
    fs::remove_dir_all(&rt, "inputs_here").expect(&rt, "no fault");
}

#[test]
fn no_report_is_put_where_the_certificate_may_not_be(rt: HostRuntime) {
    let alloc = rt.alloc();
    fs::create_dir(&rt, "second_here").expect(&rt, "no fault");
    fs::write(&rt, "second_here/screen.cert", "ephemeris").expect(&rt, "no fault");
    let words = words_of(alloc, "screen second_here --suffix .cert").expect(&rt, "memory");
    let mut shelf = DirShelf::beside(&rt, &rt, "second_here", Inputs::of(&words));
    assert_eq!(rt;
        shelf.put(alloc, b"screen.report", b"report"),
        Err(PutError::Failed)
    );
    assert!(rt;
        is_told(
            alloc,
            shelf.last_fault(),
            b"conj: second_here/screen.cert: is an input of this run\n"
        )
    );
    assert!(rt; is_free(&rt, "second_here/screen.report"));
    fs::remove_dir_all(&rt, "second_here").expect(&rt, "no fault");
}

#[test]
fn a_file_of_another_directory_stands_for_the_one_of_its_name(rt: HostRuntime) {
    let alloc = rt.alloc();
    fs::create_dir(&rt, "read_there").expect(&rt, "no fault");
    fs::create_dir(&rt, "read_there/other").expect(&rt, "no fault");
    fs::write(&rt, "read_there/a.oem", "of an object").expect(&rt, "no fault");
    fs::write(&rt, "read_there/screen.cert", "not this one").expect(&rt, "no fault");
    fs::write(&rt, "read_there/other/b.oem", "not this one").expect(&rt, "no fault");
    let mut folder = DirFolder::with_files_of(
        &rt,
        "read_there",
        "read_there/other",
        "screen.cert",
        None,
    );
    let names = folder.names(alloc).expect(&rt, "no fault");
    assert_eq!(rt; names.len(), 1);
    assert_eq!(rt; names[0].as_slice(), b"a.oem".as_slice());
    fs::write(&rt, "read_there/other/screen.cert", "this one").expect(&rt, "no fault");
    let names = folder.names(alloc).expect(&rt, "no fault");
    assert_eq!(rt; names.len(), 2);
    assert_eq!(rt; names[1].as_slice(), b"screen.cert".as_slice());
    assert_eq!(rt;
        read_whole(alloc, &mut folder, 1, 100)
            .expect(&rt, "no fault")
            .as_slice(),
        b"this one".as_slice()
    );
    fs::remove_dir_all(&rt, "read_there/other").expect(&rt, "no fault");
    assert_eq!(rt; folder.names(alloc).err(), Some(FolderError::Failed));
    assert!(rt;
        is_told(
            alloc,
            folder.last_fault(),
            b"conj: read_there/other: No such file or directory (os error 2)\n"
        )
    );
    fs::remove_dir_all(&rt, "read_there").expect(&rt, "no fault");
}

#[test]
fn a_report_of_another_directory_stands_for_the_one_of_its_name(rt: HostRuntime) {
    let alloc = rt.alloc();
    fs::create_dir(&rt, "told_there").expect(&rt, "no fault");
    fs::create_dir(&rt, "told_there/other").expect(&rt, "no fault");
    fs::write(&rt, "told_there/r.report", "not this one").expect(&rt, "no fault");
    fs::write(&rt, "told_there/other/c.cert", "certificate").expect(&rt, "no fault");
    fs::write(&rt, "told_there/other/r.report", "report").expect(&rt, "no fault");
    // The second may have the name of the first.
    let cases = [
        (Some("r.report"), "c.cert", "r.report", "report"),
        (Some("c.cert"), "r.report", "c.cert", "certificate"),
        (None, "r.report", "c.cert", "certificate"),
    ];
    for (other, first, second, held) in cases {
        let mut folder = DirFolder::with_files_of(
            &rt,
            "told_there",
            "told_there/other",
            "c.cert",
            other,
        );
        let names = folder.names(alloc).expect(&rt, "no fault");
        assert_eq!(rt; names.len(), 2);
        assert_eq!(rt; names[0].as_slice(), first.as_bytes());
        assert_eq!(rt; names[1].as_slice(), second.as_bytes());
        assert_eq!(rt;
            read_whole(alloc, &mut folder, 1, 100)
                .expect(&rt, "no fault")
                .as_slice(),
            held.as_bytes()
        );
    }
    fs::remove_dir_all(&rt, "told_there").expect(&rt, "no fault");
}
