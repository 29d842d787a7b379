//! Lines that warn, and lines that tell in what a certificate differs.
use cj_advice::{difference_text, warning_text};
use cj_io::{Difference, Differing, Warning};
use std::panic::Expect;

/// What is told of two things of a kind, of which there are none where the folder is empty, and the kind behind this one: a new one has to be given
/// its line here, or nothing compiles.
fn told_of(warning: Warning) -> (&'static str, Option<Warning>) {
    match warning {
        Warning::NoFiles => (
            "conj: warning: the directory has no file\n",
            Some(Warning::NothingTaken),
        ),
        Warning::NothingTaken => (
            "conj: warning: none of the files has a name that ends with the suffix: 2, first b.OEM\n",
            Some(Warning::LeftOut),
        ),
        Warning::LeftOut => (
            "conj: warning: files that are not taken, though their names are nearly right: 2, first b.OEM\n",
            Some(Warning::SameObject),
        ),
        Warning::SameObject => (
            "conj: warning: files with the OBJECT_ID of a file before them: 2, first b.OEM\n",
            Some(Warning::OutsideWindow),
        ),
        Warning::OutsideWindow => (
            "conj: warning: none of the objects has a state in the window: 2, first b.OEM\n",
            Some(Warning::NoState),
        ),
        Warning::NoState => (
            "conj: warning: objects without a state in the window: 2, first b.OEM\n",
            Some(Warning::StrangeSize),
        ),
        Warning::StrangeSize => (
            "conj: warning: lines of the file of sizes that name no object: 2, first b.OEM\n",
            Some(Warning::NoMessage),
        ),
        Warning::NoMessage => (
            "conj: warning: encounters without a message, for want of a covariance: 2, first b.OEM\n",
            None,
        ),
    }
}

#[test]
fn each_warning_tells_how_many_there_are_and_the_first(rt: HostRuntime) {
    let alloc = rt.alloc();
    let mut next = Some(Warning::NoFiles);
    for _ in 0..WARNINGS {
        let warning = next.expect(&rt, "one more");
        let (line, behind) = told_of(warning);
        let count = if warning == Warning::NoFiles { 0 } else { 2 };
        let text = warning_text(alloc, warning, count, b"b.OEM").expect(&rt, "no fault");
        assert_eq!(rt; text.as_slice(), line.as_bytes());
        next = behind;
    }
    assert!(rt; next.is_none());
}

/// How many kinds of warnings there are.
const WARNINGS: u32 = 8;

#[test]
fn a_name_in_a_warning_is_shown_in_printable_bytes(rt: HostRuntime) {
    let text = warning_text(rt.alloc(), Warning::NoState, 1, b"a\n b.oem").expect(&rt, "no fault");
    let line = b"conj: warning: objects without a state in the window: 1, first a? b.oem\n";
    assert_eq!(rt; text.as_slice(), line.as_slice());
}

/// 1,735,689,600 seconds from 1970 to 2025.
#[test]
fn a_difference_tells_both_sides(rt: HostRuntime) {
    let alloc = rt.alloc();
    for (of, stated, asked, lines) in [
        (
            Differing::Start,
            1_735_689_600_000_000,
            1_735_689_660_000_001,
            "hint: the window begins 2025-01-01T00:00:00.000000 in the certificate,\n\
             hint: the window begins 2025-01-01T00:01:00.000001 here\n",
        ),
        (
            Differing::Stop,
            1_735_689_660_000_000,
            1_735_689_600_000_000,
            "hint: the window ends 2025-01-01T00:01:00.000000 in the certificate,\n\
             hint: the window ends 2025-01-01T00:00:00.000000 here\n",
        ),
        (
            Differing::Threshold,
            5_000_000_000_000,
            1_000_000_000_000,
            "hint: the threshold is 5000000000000 nm in the certificate,\n\
             hint: the threshold is 1000000000000 nm here\n",
        ),
        (
            Differing::Objects,
            3,
            2,
            "hint: the number of objects is 3 in the certificate,\nhint: the number of objects is 2 here\n",
        ),
        (
            Differing::Size { object: 2 },
            0,
            7,
            "hint: the size of object 2 is 0 nm in the certificate,\nhint: the size of object 2 is 7 nm here\n",
        ),
    ] {
        let text = difference_text(alloc, Difference { of, stated, asked }).expect(&rt, "no fault");
        assert!(rt; text.as_slice() == lines.as_bytes());
    }
}
