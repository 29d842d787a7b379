//! What reports tell of the ticks that objects cover, and runs that want all covered.
use crate::runs::{certificate_of, file, is_told, run, told, with_certificate};
use crate::scenes::{CROSSING, Content, SHARING_ONE_TICK, Scene, files_of};
use cj_io::FileBytes;
use std::alloc::{AllocError, Global};
use std::panic::Expect;
use std::sync::Wait;
use std::thread::Threads;

/// An object that is useable for 20 seconds, and from 30 seconds on again.
const GAP: Content = Content::Two(&[(
    11,
    b"STOP_TIME = 2025-01-01T00:01:00\nUSEABLE_STOP_TIME = 2025-01-01T00:00:20",
)]);

/// The same, useable up to the microsecond before it begins again.
const WHOLE: Content = Content::Two(&[(
    11,
    b"STOP_TIME = 2025-01-01T00:01:00\nUSEABLE_STOP_TIME = 2025-01-01T00:00:29.999999",
)]);

const WITH_A_GAP: Scene = &[("a.oem", GAP)];

const WITHOUT_A_GAP: Scene = &[("a.oem", WHOLE)];

const GAP_BEFORE_AN_UPDATE: Scene = &[("a.oem", GAP), ("a.oem.new", WHOLE)];

const GAP_IN_AN_UPDATE: Scene = &[("a.oem", WHOLE), ("a.oem.new", GAP)];

/// What is told of two objects whose useable spans share one tick.
const SHARED: &[u8] = b"CONJ-REPORT 1
WINDOW 2025-01-01T00:00:00.000000 2025-01-01T00:01:00.000000
THRESHOLD 5000000000000
OBJECT 1
FILE a.oem
ID 2025-001A
NAME SAT A
COVERED 2025-01-01T00:00:00.000000 2025-01-01T00:00:30.000000
OBJECT 2
FILE b.oem
ID 2025-001A
NAME SAT A
COVERED 2025-01-01T00:00:30.000000 2025-01-01T00:01:00.000000
ENCOUNTER 1 1 2 NEAR 2025-01-01T00:00:30.000000 5000000000000 NOCOV
SPAN NEAR 2025-01-01T00:00:30.000000 2025-01-01T00:00:30.000000
END
";

/// A command line, the files of its folder, and the report that is put.
type Reported<'a> = (&'a str, Scene, &'a [u8]);

const REPORTS: [Reported; 4] = [
    ("screen . --coverage", SHARING_ONE_TICK, SHARED),
    (
        "screen . --coverage",
        WITH_A_GAP,
        b"CONJ-REPORT 1
WINDOW 2025-01-01T00:00:00.000000 2025-01-01T00:01:00.000000
THRESHOLD 5000000000000
OBJECT 1
FILE a.oem
ID 2025-001A
NAME SAT A
COVERED 2025-01-01T00:00:00.000000 2025-01-01T00:00:20.000000
COVERED 2025-01-01T00:00:30.000000 2025-01-01T00:01:00.000000
END
",
    ),
    (
        "screen . --coverage --from 2025-01-01T00:00:10",
        WITHOUT_A_GAP,
        b"CONJ-REPORT 1
WINDOW 2025-01-01T00:00:10.000000 2025-01-01T00:01:00.000000
THRESHOLD 5000000000000
OBJECT 1
FILE a.oem
ID 2025-001A
NAME SAT A
COVERED 2025-01-01T00:00:10.000000 2025-01-01T00:01:00.000000
END
",
    ),
    (
        "screen . --coverage --from 2025-01-01T00:02:00 --to 2025-01-01T00:03:00",
        WITHOUT_A_GAP,
        b"CONJ-REPORT 1
WINDOW 2025-01-01T00:02:00.000000 2025-01-01T00:03:00.000000
THRESHOLD 5000000000000
OBJECT 1
FILE a.oem
ID 2025-001A
NAME SAT A
COVERED NONE
END
",
    ),
];

/// The place of the first case with another report.
fn first_other<R: Threads + Wait + Sync>(
    rt: &R,
    alloc: Global,
    cases: &[Reported],
) -> Result<Option<usize>, AllocError> {
    for (place, (line, scene, report)) in cases.iter().enumerate() {
        let ran = run(rt, alloc, line, files_of(alloc, scene)?)?;
        if ran.number != 0 || ran.report.as_slice() != *report {
            return Ok(Some(place));
        }
    }
    Ok(None)
}

#[test]
fn covered_spans_stand_behind_the_lines_of_their_objects(rt: HostRuntime) {
    assert_eq!(rt;
        first_other(&rt, rt.alloc(), REPORTS.as_slice()).expect(&rt, "no fault"),
        None
    );
}

/// A command line, the files of its folder, and the line with which what is told ends.
type Told<'a> = (&'a str, Scene, &'a [u8]);

const TOLD: [Told; 14] = [
    ("screen . --coverage", SHARING_ONE_TICK, b"\nUNCOVERED 2\n"),
    ("screen . --coverage", WITH_A_GAP, b"\nUNCOVERED 1\n"),
    ("screen . --coverage", CROSSING, b"\nUNCOVERED 0\n"),
    ("screen . --must-cover", CROSSING, b"\nMESSAGES 0\n"),
    ("screen . --must-cover", WITHOUT_A_GAP, b"\nMESSAGES 0\n"),
    (
        "screen . --must-cover",
        SHARING_ONE_TICK,
        b"conj: a.oem: line 0: Uncovered 2025-01-01T00:00:30.000001\n",
    ),
    (
        "screen . --must-cover --from 2025-01-01T00:00:00 --to 2025-01-01T00:00:30",
        SHARING_ONE_TICK,
        b"conj: b.oem: line 0: Uncovered 2025-01-01T00:00:00.000000\n",
    ),
    (
        "screen . --must-cover --coverage --from 2025-01-01T00:00:30 --to 2025-01-01T00:00:30",
        SHARING_ONE_TICK,
        b"\nUNCOVERED 0\n",
    ),
    (
        "screen . --must-cover",
        WITH_A_GAP,
        b"conj: a.oem: line 0: Uncovered 2025-01-01T00:00:20.000001\n",
    ),
    // What is asked of a file comes before it.
    (
        "screen . --must-cover --cells 1 --to 2025-02-01T00:00:00",
        WITH_A_GAP,
        b"conj: limit: Window 2678400000000\n",
    ),
    // Of files that are screened again the updated ones are judged.
    (
        "rescreen . --from 2025-01-01T00:00:00 --to 2025-01-01T00:01:00 --must-cover --coverage",
        GAP_BEFORE_AN_UPDATE,
        b"\nKEPT 0\nUNCOVERED 0\n",
    ),
    (
        "rescreen . --from 2025-01-01T00:00:00 --to 2025-01-01T00:01:00 --coverage",
        GAP_IN_AN_UPDATE,
        b"\nKEPT 0\nUNCOVERED 1\n",
    ),
    (
        "rescreen . --from 2025-01-01T00:00:00 --to 2025-01-01T00:01:00 --coverage --changed",
        GAP_IN_AN_UPDATE,
        b"OBJECTS 1\nENCOUNTERS 0\nKEPT 0\nUNCOVERED 1\n",
    ),
    (
        "rescreen . --from 2025-01-01T00:00:00 --to 2025-01-01T00:01:00 --must-cover",
        GAP_IN_AN_UPDATE,
        b"conj: a.oem: line 0: Uncovered 2025-01-01T00:00:20.000001\n",
    ),
];

/// The place of the first case that tells something else.
fn first_untold<R: Threads + Wait + Sync>(
    rt: &R,
    alloc: Global,
    cases: &[Told],
) -> Result<Option<usize>, AllocError> {
    for (place, (line, scene, end)) in cases.iter().enumerate() {
        let told = told(rt, alloc, line, files_of(alloc, scene)?)?;
        if !told.ends_with(end) {
            return Ok(Some(place));
        }
    }
    Ok(None)
}

#[test]
fn what_is_not_covered_is_counted_or_refused(rt: HostRuntime) {
    assert_eq!(rt;
        first_untold(&rt, rt.alloc(), TOLD.as_slice()).expect(&rt, "no fault"),
        None
    );
}

/// Two objects that share one tick, and behind them the certificate of their screening and the report that tells what they cover.
fn screened<R: Threads + Wait + Sync>(rt: &R, alloc: Global) -> Result<Vec<FileBytes>, AllocError> {
    let certificate = certificate_of(rt, alloc, "screen .", files_of(alloc, SHARING_ONE_TICK)?)?;
    let files = files_of(alloc, SHARING_ONE_TICK)?;
    let mut files = with_certificate(alloc, files, &certificate)?;
    files.push(file(alloc, b"screen.report", SHARED)?)?;
    Ok(files)
}

/// Command lines, and what they tell of that report.
const CHECKS: [(&str, &[u8]); 3] = [
    ("check . --report screen.report --coverage", b"ACCEPTED\n"),
    (
        "check . --report screen.report",
        b"conj: not accepted: line 8: Report\n",
    ),
    ("check . --coverage", b"conj: usage: Words\n"),
];

/// The place of the first check that tells something else.
fn first_misjudged<R: Threads + Wait + Sync>(
    rt: &R,
    alloc: Global,
) -> Result<Option<usize>, AllocError> {
    for (place, (line, due)) in CHECKS.iter().enumerate() {
        if !is_told(rt, alloc, line, screened(rt, alloc)?, due)? {
            return Ok(Some(place));
        }
    }
    Ok(None)
}

#[test]
fn a_report_is_checked_with_the_coverage_that_it_tells(rt: HostRuntime) {
    let alloc = rt.alloc();
    assert_eq!(rt; first_misjudged(&rt, alloc).expect(&rt, "no fault"), None);
}
