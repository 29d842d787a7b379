//! The directories that command lines name, and options that name none.
use crate::lines::{Case, fault_of, first_wrong, name_of, words};
use crate::usage_faults::{
    BAD_CERT, BAD_CERT_DIR, BAD_MINUTES, BAD_OUT, BAD_SIZES, BAD_VERSION, BAD_WITHIN, WORDS,
};
use cj_words::{Places, UsageFault, places_of, read_command};
use std::alloc::{AllocError, Global};
use std::panic::Expect;

/// A command line, its directory, that of the certificate, and that of the results.
type Named<'a> = (&'a str, &'a [u8], Option<&'a [u8]>, Option<&'a [u8]>);

/// The place of the first line that names other directories.
fn first_misplaced(alloc: Global, cases: &[Named]) -> Result<Option<usize>, AllocError> {
    for (place, (line, directory, certificates, results)) in cases.iter().enumerate() {
        let words = words(alloc, line)?;
        let expected = Places {
            directory: *directory,
            certificates: *certificates,
            results: *results,
        };
        if places_of(&words) != expected {
            return Ok(Some(place));
        }
    }
    Ok(None)
}

const NAMED: [Named; 17] = [
    ("screen d", b"d", None, None),
    ("screen d --out r", b"d", None, Some(b"r")),
    (
        "screen d/ --threshold 1 --out=r/s/ --cells 9",
        b"d/",
        None,
        Some(b"r/s/"),
    ),
    ("screen d --out d", b"d", None, Some(b"d")),
    ("screen d --out=--cert-dir", b"d", None, Some(b"--cert-dir")),
    ("screen d --out a=b", b"d", None, Some(b"a=b")),
    ("check d --cert-dir c", b"d", Some(b"c"), None),
    (
        "check d --cert-dir=../c --cert x",
        b"d",
        Some(b"../c"),
        None,
    ),
    ("rewrite d", b"d", None, None),
    (
        "rewrite d --out r --cert-dir=c",
        b"d",
        Some(b"c"),
        Some(b"r"),
    ),
    (
        "rewrite d --cert-dir c --out=r",
        b"d",
        Some(b"c"),
        Some(b"r"),
    ),
    ("generate d --out r --seed 2", b"d", None, Some(b"r")),
    ("generate out --seed 2", b"out", None, None),
    ("thin d --within 2", b"d", None, None),
    ("thin d --within 2 --out=r", b"d", None, Some(b"r")),
    ("selfrun", b".", None, None),
    ("selfrun --seed 3", b".", None, None),
];

#[test]
fn directories_that_are_named(rt: HostRuntime) {
    assert_eq!(rt;
        first_misplaced(rt.alloc(), NAMED.as_slice()).expect(&rt, "no fault"),
        None
    );
}

const REFUSED: [Named; 15] = [
    // With a directory, but not accepted.
    ("screen d --out r --threshold 0", b"d", None, None),
    ("screen d --out r --cert-dir c", b"d", None, None),
    ("screen d --out r --out r", b"d", None, None),
    ("screen d --out", b"d", None, None),
    ("screen d --out=\t", b"d", None, None),
    ("check d --cert-dir c --out r", b"d", None, None),
    ("rewrite d --cert-dir c --out=\t", b"d", None, None),
    ("generate d r", b"d", None, None),
    ("thin d --out r --within 0", b"d", None, None),
    // Without one.
    ("screen --out r", b".", None, None),
    ("screen", b".", None, None),
    ("screens d --out r", b".", None, None),
    ("--out r", b".", None, None),
    ("selfrun --out r", b".", None, None),
    ("", b".", None, None),
];

#[test]
fn lines_that_are_refused_name_no_more_than_their_own(rt: HostRuntime) {
    assert_eq!(rt;
        first_misplaced(rt.alloc(), REFUSED.as_slice()).expect(&rt, "no fault"),
        None
    );
}

#[test]
fn no_words_name_the_current_directory(rt: HostRuntime) {
    let here = Places {
        directory: b".",
        certificates: None,
        results: None,
    };
    assert_eq!(rt; places_of(&[]), here);
}

/// Whether two lines ask for the same.
fn ask_the_same(alloc: Global, one: &str, other: &str) -> Result<bool, AllocError> {
    let one = words(alloc, one)?;
    let other = words(alloc, other)?;
    Ok(read_command(&one) == read_command(&other))
}

#[test]
fn what_is_asked_of_files_does_not_depend_on_them(rt: HostRuntime) {
    let alloc = rt.alloc();
    let one = "rewrite d --threshold 7 --cert x";
    let other = "rewrite d --out r --threshold 7 --cert-dir c --cert x";
    assert!(rt; ask_the_same(alloc, one, other).expect(&rt, "no fault"));
}

const COMMANDS: [Case; 14] = [
    ("screen . --out r", None),
    ("rewrite . --out=r", None),
    ("generate . --out r", None),
    ("thin . --out r", None),
    ("check . --out r", WORDS),
    ("selfrun --out r", WORDS),
    ("selfrun --out=r --seed 1", WORDS),
    ("check . --cert-dir=c", None),
    ("rewrite . --cert-dir c", None),
    ("screen . --cert-dir c", WORDS),
    ("generate . --cert-dir=c", WORDS),
    ("thin . --cert-dir c", WORDS),
    ("selfrun --cert-dir c", WORDS),
    ("screen . --cert-dir=\t", WORDS),
];

#[test]
fn each_command_has_its_own(rt: HostRuntime) {
    assert_eq!(rt;
        first_wrong(rt.alloc(), COMMANDS.as_slice()).expect(&rt, "no fault"),
        None
    );
}

const FORMS: [Case; 23] = [
    // At most once.
    ("screen . --out r --out r", WORDS),
    ("generate . --out=r --seed 1 --out s", WORDS),
    ("check . --cert-dir c --cert-dir=c", WORDS),
    ("rewrite . --cert-dir c --cert-dir d", WORDS),
    ("rewrite . --out c --cert-dir c", None),
    // Not empty, and no option as a word of its own.
    ("screen . --out", WORDS),
    ("screen . --out ", WORDS),
    ("screen . --out=", WORDS),
    ("check . --cert-dir", WORDS),
    ("check . --cert-dir ", WORDS),
    ("check . --cert-dir=", WORDS),
    ("screen . --out --threshold 1", WORDS),
    ("screen . --out -r", WORDS),
    ("screen . --out=-r", None),
    ("check . --cert-dir=--cert", None),
    // Names are matched whole.
    ("screen . --ou r", WORDS),
    ("screen . --outs r", WORDS),
    ("check . --cert-dirs c", WORDS),
    ("check . --cert-di c", WORDS),
    // Paths of all kinds.
    ("screen . --out /", None),
    ("screen . --out ../r//s/./", None),
    ("check . --cert-dir .", None),
    ("check . --cert-dir \u{e9}\u{4e16}", None),
];

#[test]
fn forms_of_the_options(rt: HostRuntime) {
    assert_eq!(rt;
        first_wrong(rt.alloc(), FORMS.as_slice()).expect(&rt, "no fault"),
        None
    );
}

const ORDER: [Case; 15] = [
    // Behind all other values, and the directory of the results first.
    ("screen . --out \x7f", BAD_OUT),
    ("generate . --out \x7f", BAD_OUT),
    ("check . --cert-dir \x7f", BAD_CERT_DIR),
    ("rewrite . --cert-dir \x7f", BAD_CERT_DIR),
    ("rewrite . --cert-dir \x7f --out \x7f", BAD_OUT),
    ("rewrite . --cert-dir \x7f --out r", BAD_CERT_DIR),
    ("screen . --out \x7f --cert-version 3", BAD_VERSION),
    ("check . --cert-dir \x7f --sizes /", BAD_SIZES),
    ("rewrite . --out \x7f --cert-dir \x7f --cert /", BAD_CERT),
    ("generate . --out \x7f --minutes 0", BAD_MINUTES),
    ("thin . --out \x7f", BAD_OUT),
    ("thin . --out \x7f --within 0", BAD_WITHIN),
    // The words before every value.
    ("screen . --out \x7f --unknown 1", WORDS),
    ("check . --out \x7f", WORDS),
    ("rewrite . --out \x7f --cert-dir", WORDS),
];

#[test]
fn they_are_judged_last(rt: HostRuntime) {
    assert_eq!(rt;
        first_wrong(rt.alloc(), ORDER.as_slice()).expect(&rt, "no fault"),
        None
    );
}

#[test]
fn a_path_has_a_thousand_bytes_at_most(rt: HostRuntime) {
    let alloc = rt.alloc();
    for (count, out, cert_dir) in [
        (1, None, None),
        (1000, None, None),
        (1001, BAD_OUT, BAD_CERT_DIR),
    ] {
        let name = name_of(alloc, count).expect(&rt, "no fault");
        assert_eq!(rt;
            fault_of(alloc, "screen . --out", &name).expect(&rt, "no fault"),
            out
        );
        assert_eq!(rt;
            fault_of(alloc, "check . --cert-dir", &name).expect(&rt, "no fault"),
            cert_dir
        );
    }
}

/// The bytes that may not stand in the value of an option.
fn bytes_refused(
    alloc: Global,
    option: &str,
    fault: Option<UsageFault>,
) -> Result<Vec<u8>, AllocError> {
    let mut refused = Vec::new(alloc);
    for byte in 0..=255 {
        if fault_of(alloc, option, &[b'x', byte])? == fault {
            refused.push(byte)?;
        }
    }
    Ok(refused)
}

/// The control characters.
const CONTROLS: [u8; 33] = [
    0, 1, 2, 3, 4, 5, 6, 7, 8, 9, 10, 11, 12, 13, 14, 15, 16, 17, 18, 19, 20, 21, 22, 23, 24, 25,
    26, 27, 28, 29, 30, 31, 127,
];

#[test]
fn a_path_has_no_control_character(rt: HostRuntime) {
    let alloc = rt.alloc();
    assert_eq!(rt;
        bytes_refused(alloc, "generate . --out", BAD_OUT)
            .expect(&rt, "no fault")
            .as_slice(),
        CONTROLS.as_slice()
    );
    assert_eq!(rt;
        bytes_refused(alloc, "rewrite . --cert-dir", BAD_CERT_DIR)
            .expect(&rt, "no fault")
            .as_slice(),
        CONTROLS.as_slice()
    );
}
