//! Runs in which some objects are named as primaries: only pairs with one of them are looked at.
use crate::certificates::is_certified;
use crate::runs::{file, is_told, run, with_certificate};
use crate::scenes::{Content, Scene, files_of};
use std::alloc::{AllocError, Global};
use std::panic::Expect;
use std::sync::Wait;
use std::thread::Threads;

/// Three objects at rest on a line, each within five kilometres of the others.
const A: Content = Content::One(&[]);

const B: Content = Content::One(&[
    (5, b"OBJECT_NAME = SAT B"),
    (6, b"OBJECT_ID = 2025-002A"),
    (15, b"2025-01-01T00:00:00 7005 0 0 0 0 0"),
    (16, b"2025-01-01T00:01:00 7005 0 0 0 0 0"),
]);

const C: Content = Content::One(&[
    (5, b"OBJECT_NAME = SAT C"),
    (6, b"OBJECT_ID = 2025-003A"),
    (15, b"2025-01-01T00:00:00 7003 0 0 0 0 0"),
    (16, b"2025-01-01T00:01:00 7003 0 0 0 0 0"),
]);

/// Files that name the first, the second, and all of them.
pub const THREE: Scene = &[
    ("a.oem", A),
    ("b.oem", B),
    ("c.oem", C),
    ("fleet.txt", Content::Text("COMMENT ours\n\n2025-001A\r\n")),
    ("other.txt", Content::Text("2025-002A")),
    (
        "all.txt",
        Content::Text("2025-003A\n2025-001A\n2025-002A\n"),
    ),
    ("nobody.txt", Content::Text("COMMENT nobody\n")),
    ("empty.txt", Content::Text("")),
    ("twice.txt", Content::Text("2025-001A\n\n2025-001A\n")),
    ("unknown.txt", Content::Text("2025-001A\n2025-001B\n")),
    ("form.txt", Content::Text("2025-001A 2025-002A\n")),
    ("pair.txt", Content::Text("PRIMARY = 2025-001A\n")),
    ("equals.txt", Content::Text("2025-001A = 2025-002A\n")),
    (
        "bytes.txt",
        Content::Text("2025-001A\n2025-001A\n2025\u{7f}\n"),
    ),
];

/// What a command line puts that names these primaries.
type Reported<'a> = (&'a str, &'a [u8]);

const REPORTS: [Reported; 2] = [
    (
        "screen . --primaries fleet.txt",
        b"CONJ-REPORT 1
WINDOW 2025-01-01T00:00:00.000000 2025-01-01T00:01:00.000000
THRESHOLD 5000000000000
OBJECT 1
FILE a.oem
ID 2025-001A
NAME SAT A
PRIMARY
OBJECT 2
FILE b.oem
ID 2025-002A
NAME SAT B
OBJECT 3
FILE c.oem
ID 2025-003A
NAME SAT C
ENCOUNTER 1 1 2 NEAR 2025-01-01T00:00:00.000000 5000000000000 NOCOV
SPAN NEAR 2025-01-01T00:00:00.000000 2025-01-01T00:01:00.000000
ENCOUNTER 2 1 3 NEAR 2025-01-01T00:00:00.000000 3000000000000 NOCOV
SPAN NEAR 2025-01-01T00:00:00.000000 2025-01-01T00:01:00.000000
END
",
    ),
    (
        "screen . --primaries other.txt --workers 3 --threshold 4000 --coverage",
        b"CONJ-REPORT 1
WINDOW 2025-01-01T00:00:00.000000 2025-01-01T00:01:00.000000
THRESHOLD 4000000000000
OBJECT 1
FILE a.oem
ID 2025-001A
NAME SAT A
COVERED 2025-01-01T00:00:00.000000 2025-01-01T00:01:00.000000
OBJECT 2
FILE b.oem
ID 2025-002A
NAME SAT B
PRIMARY
COVERED 2025-01-01T00:00:00.000000 2025-01-01T00:01:00.000000
OBJECT 3
FILE c.oem
ID 2025-003A
NAME SAT C
COVERED 2025-01-01T00:00:00.000000 2025-01-01T00:01:00.000000
ENCOUNTER 1 2 3 NEAR 2025-01-01T00:00:00.000000 2000000000000 NOCOV
SPAN NEAR 2025-01-01T00:00:00.000000 2025-01-01T00:01:00.000000
END
",
    ),
];

/// The place of the first case with another report.
fn first_other<R: Threads + Wait + Sync>(
    rt: &R,
    alloc: Global,
    cases: &[Reported],
) -> Result<Option<usize>, AllocError> {
    for (place, (line, report)) in cases.iter().enumerate() {
        if run(rt, alloc, line, files_of(alloc, THREE)?)?
            .report
            .as_slice()
            != *report
        {
            return Ok(Some(place));
        }
    }
    Ok(None)
}

#[test]
fn pairs_with_a_primary_alone_are_told(rt: HostRuntime) {
    assert_eq!(rt;
        first_other(&rt, rt.alloc(), REPORTS.as_slice()).expect(&rt, "no fault"),
        None
    );
}

/// The certificate where the first object is the primary.
const CERTIFICATE: &[u8] = b"CONJ-CERT 3
WINDOW 1735689600000000 1735689660000000
THRESHOLD 5000000000000
OBJECTS 3
SIZE 1 0
SIZE 2 0
SIZE 3 0
PRIMARY 1
SHELL 1 7000000000000000 7000000000000000
SHELL 2 7005000000000000 7005000000000000
SHELL 3 7003000000000000 7003000000000000
CELL 1 2 1735689600000000 1735689659999999 N
CELL 1 3 1735689600000000 1735689659999999 N
CELL 1 2 1735689660000000 1735689660000000 N
CELL 1 3 1735689660000000 1735689660000000 N
END
";

/// The same with a cell of two secondaries.
const WITH_SECONDARIES: &[u8] = b"CONJ-CERT 3
WINDOW 1735689600000000 1735689660000000
THRESHOLD 5000000000000
OBJECTS 3
SIZE 1 0
SIZE 2 0
SIZE 3 0
PRIMARY 1
SHELL 1 7000000000000000 7000000000000000
SHELL 2 7005000000000000 7005000000000000
SHELL 3 7003000000000000 7003000000000000
CELL 1 2 1735689600000000 1735689659999999 N
CELL 1 3 1735689600000000 1735689659999999 N
CELL 2 3 1735689600000000 1735689659999999 N
CELL 1 2 1735689660000000 1735689660000000 N
CELL 1 3 1735689660000000 1735689660000000 N
CELL 2 3 1735689660000000 1735689660000000 N
END
";

/// A command line, a certificate, and what is told.
type Checked<'a> = (&'a str, &'a [u8], &'a [u8]);

const CHECKS: [Checked; 8] = [
    ("check . --primaries fleet.txt", CERTIFICATE, b"ACCEPTED\n"),
    (
        "check . --primaries fleet.txt --report screen.report",
        CERTIFICATE,
        b"ACCEPTED\n",
    ),
    (
        "rewrite . --primaries fleet.txt",
        CERTIFICATE,
        b"REWRITTEN\n",
    ),
    (
        "check . --primaries other.txt",
        CERTIFICATE,
        b"conj: not accepted: line 8: PrimaryOf\n",
    ),
    (
        "check . --primaries all.txt",
        CERTIFICATE,
        b"conj: not accepted: line 9: PrimaryOf\n",
    ),
    (
        "check . --brief",
        CERTIFICATE,
        b"conj: not accepted: line 8: PrimaryOf\n",
    ),
    (
        "check .",
        CERTIFICATE,
        b"conj: not accepted: line 1: Text Form\n",
    ),
    (
        "check . --primaries fleet.txt",
        WITH_SECONDARIES,
        b"conj: not accepted: line 14: Stranger\n",
    ),
];

/// The place of the first case in which something else is told.
fn first_wrong<R: Threads + Wait + Sync>(
    rt: &R,
    alloc: Global,
    report: &[u8],
    cases: &[Checked],
) -> Result<Option<usize>, AllocError> {
    for (place, (line, certificate, due)) in cases.iter().enumerate() {
        let mut files = with_certificate(alloc, files_of(alloc, THREE)?, certificate)?;
        files.push(file(alloc, b"screen.report", report)?)?;
        if !is_told(rt, alloc, line, files, due)? {
            return Ok(Some(place));
        }
    }
    Ok(None)
}

#[test]
fn a_certificate_is_one_of_its_primaries(rt: HostRuntime) {
    let alloc = rt.alloc();
    let line = "screen . --primaries fleet.txt";
    assert!(rt; is_certified(&rt, alloc, line, THREE, CERTIFICATE).expect(&rt, "no fault"));
    let report = REPORTS[0].1;
    assert_eq!(rt;
        first_wrong(&rt, alloc, report, CHECKS.as_slice()).expect(&rt, "no fault"),
        None
    );
}

/// A command line, and the fault line.
type Refused<'a> = (&'a str, &'a [u8]);

const REFUSALS: [Refused; 12] = [
    (
        "screen . --primaries none.txt",
        b"conj: none.txt: line 0: NoPrimaries\n",
    ),
    (
        "screen . --primaries nobody.txt",
        b"conj: nobody.txt: line 0: NoPrimaries\n",
    ),
    (
        "check . --primaries empty.txt",
        b"conj: empty.txt: line 0: NoPrimaries\n",
    ),
    (
        "screen . --primaries twice.txt",
        b"conj: twice.txt: line 3: Primaries Twice\n",
    ),
    (
        "screen . --primaries unknown.txt",
        b"conj: unknown.txt: line 2: Primaries Unknown\n",
    ),
    (
        "screen . --primaries form.txt",
        b"conj: form.txt: line 1: Primaries Form\n",
    ),
    (
        "screen . --primaries pair.txt",
        b"conj: pair.txt: line 1: Primaries Form\n",
    ),
    (
        "screen . --primaries equals.txt",
        b"conj: equals.txt: line 1: Primaries Kvn NoLineForm\n",
    ),
    // A line without a form comes before what is wrong with an earlier one.
    (
        "screen . --primaries bytes.txt",
        b"conj: bytes.txt: line 3: Primaries Kvn NotPrintable\n",
    ),
    // Sizes come first.
    (
        "screen . --primaries none.txt --sizes none.txt",
        b"conj: none.txt: line 0: NoSizes\n",
    ),
    (
        "screen . --primaries a/b",
        b"conj: usage: Value --primaries\n",
    ),
    (
        "screen . --primaries fleet.txt --cert-version 1",
        b"conj: usage: Value --cert-version\n",
    ),
];

/// The place of the first case with another fault line.
fn first_taken<R: Threads + Wait + Sync>(
    rt: &R,
    alloc: Global,
    cases: &[Refused],
) -> Result<Option<usize>, AllocError> {
    for (place, (line, due)) in cases.iter().enumerate() {
        if !is_told(rt, alloc, line, files_of(alloc, THREE)?, due)? {
            return Ok(Some(place));
        }
    }
    Ok(None)
}

#[test]
fn what_is_wrong_with_a_file_of_primaries_is_told(rt: HostRuntime) {
    assert_eq!(rt;
        first_taken(&rt, rt.alloc(), REFUSALS.as_slice()).expect(&rt, "no fault"),
        None
    );
}
