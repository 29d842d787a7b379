//! Reports that are checked beside their certificates.
use crate::runs::{Ran, end_failing, file, run, told};
use crate::scenes::{COVERED, files_of};
use cj_io::{CalmShelf, FileBytes};
use std::alloc::{AllocError, Global};
use std::panic::Expect;
use std::sync::Wait;
use std::thread::Threads;

/// The lines of the report of two objects that cross at one kilometre and have covariances.
const LINES: [&[u8]; 14] = [
    b"CONJ-REPORT 1",
    b"WINDOW 2025-01-01T00:00:00.000000 2025-01-01T00:01:00.000000",
    b"THRESHOLD 5000000000000",
    b"OBJECT 1",
    b"FILE a.oem",
    b"ID 2025-001A",
    b"NAME SAT A",
    b"OBJECT 2",
    b"FILE b.oem",
    b"ID 2025-002A",
    b"NAME SAT B",
    b"ENCOUNTER 1 1 2 NEAR 2025-01-01T00:00:30.000000 1000000000000 CDM",
    b"SPAN NEAR 2025-01-01T00:00:29.538120 2025-01-01T00:00:30.461880",
    b"END",
];

/// What is done to a report. Lines are counted from 1.
#[derive(Clone, Copy)]
enum Change {
    /// It is left as it is.
    Nothing,
    /// The lines from the one to the other are left out.
    Without(usize, usize),
    /// A line stands twice.
    Twice(usize),
    /// A line has no end.
    Unended(usize),
    /// Another line stands in the place of one.
    With(usize, &'static [u8]),
}

/// Appends what stands in the place of the line with this number.
fn push_changed(
    text: &mut Vec<u8>,
    here: usize,
    line: &[u8],
    change: Change,
) -> Result<(), AllocError> {
    match change {
        Change::Without(first, last) if first <= here && here <= last => Ok(()),
        Change::With(number, other) if number == here => push_line(text, other),
        Change::Unended(number) if number == here => text.extend_from_slice(line),
        Change::Twice(number) if number == here => {
            push_line(text, line)?;
            push_line(text, line)
        }
        _ => push_line(text, line),
    }
}

fn push_line(text: &mut Vec<u8>, line: &[u8]) -> Result<(), AllocError> {
    text.extend_from_slice(line)?;
    text.push(b'\n')?;
    Ok(())
}

/// The text of the report with a change.
fn report(alloc: Global, change: Change) -> Result<Vec<u8>, AllocError> {
    let mut text = Vec::new(alloc);
    for (place, line) in LINES.iter().enumerate() {
        push_changed(&mut text, place + 1, line, change)?;
    }
    Ok(text)
}

/// The crossing objects and radii for them, and behind them this certificate and this report.
fn with_outputs(
    alloc: Global,
    certificate: &[u8],
    report: &[u8],
) -> Result<Vec<FileBytes>, AllocError> {
    let mut files = files_of(alloc, COVERED)?;
    files.push(file(alloc, b"sizes.txt", b"2025-001A 1.5\n")?)?;
    files.push(file(alloc, b"screen.cert", certificate)?)?;
    files.push(file(alloc, b"screen.report", report)?)?;
    Ok(files)
}

/// What a screening of the crossing objects puts.
fn screened<R: Threads + Wait + Sync>(
    rt: &R,
    alloc: Global,
    line: &str,
) -> Result<Ran, AllocError> {
    run(rt, alloc, line, with_outputs(alloc, b"", b"")?)
}

/// A command line, what is done to the report, and what is told: on standard output, or of the failure.
type Case<'a> = (&'a str, Change, &'a [u8]);

const ACCEPTED: &[u8] = b"ACCEPTED\n";

const LINE: &str = "check . --report screen.report";

const AT_12: &[u8] = b"conj: not accepted: line 12: Report\n";

const CASES: [Case; 17] = [
    (LINE, Change::Nothing, ACCEPTED),
    // The encounter is not told, or without its span.
    (LINE, Change::Without(12, 13), AT_12),
    (
        LINE,
        Change::Without(13, 13),
        b"conj: not accepted: line 13: Report\n",
    ),
    // Another miss distance, another time, other marks.
    (
        LINE,
        Change::With(
            12,
            b"ENCOUNTER 1 1 2 NEAR 2025-01-01T00:00:30.000000 1000000000001 CDM",
        ),
        AT_12,
    ),
    (
        LINE,
        Change::With(
            12,
            b"ENCOUNTER 1 1 2 NEAR 2025-01-01T00:00:30.000001 1000000000000 CDM",
        ),
        AT_12,
    ),
    (
        LINE,
        Change::With(
            12,
            b"ENCOUNTER 1 1 2 NEAR 2025-01-01T00:00:30.000000 1000000000000 NOCOV",
        ),
        AT_12,
    ),
    (
        LINE,
        Change::With(
            12,
            b"ENCOUNTER 1 1 2 UNDECIDED 2025-01-01T00:00:30.000000 1000000000000 CDM",
        ),
        AT_12,
    ),
    // A shorter span.
    (
        LINE,
        Change::With(
            13,
            b"SPAN NEAR 2025-01-01T00:00:29.538120 2025-01-01T00:00:30.461879",
        ),
        b"conj: not accepted: line 13: Report\n",
    ),
    // A line too many, an end too few, and no line.
    (
        LINE,
        Change::Twice(14),
        b"conj: not accepted: line 15: Report\n",
    ),
    (
        LINE,
        Change::Unended(14),
        b"conj: not accepted: line 14: Report\n",
    ),
    (
        LINE,
        Change::Without(1, 14),
        b"conj: not accepted: line 1: Report\n",
    ),
    // Another name, and an object that is not told.
    (
        LINE,
        Change::With(11, b"NAME SAT C"),
        b"conj: not accepted: line 11: Report\n",
    ),
    (
        LINE,
        Change::Without(4, 7),
        b"conj: not accepted: line 4: Report\n",
    ),
    // The certificate comes first, and the file of the report before both are judged.
    (
        "check . --report screen.report --threshold 4999",
        Change::Without(12, 13),
        b"conj: not accepted: line 3: Header\n",
    ),
    (
        "check . --report other.report --threshold 4999",
        Change::Nothing,
        b"conj: not accepted: line 0: NoReport\n",
    ),
    (
        "check . --report other.report --cert other.cert",
        Change::Nothing,
        b"conj: not accepted: line 0: NoFile\n",
    ),
    // Without the option nothing is asked of the report.
    ("check .", Change::Without(12, 13), ACCEPTED),
];

/// The place of the first case in which something else is told.
fn first_other<R: Threads + Wait + Sync>(
    rt: &R,
    alloc: Global,
    cases: &[Case],
) -> Result<Option<usize>, AllocError> {
    let certificate = screened(rt, alloc, "screen .")?.certificate;
    for (place, (line, change, due)) in cases.iter().enumerate() {
        let files = with_outputs(alloc, &certificate, &report(alloc, *change)?)?;
        if told(rt, alloc, line, files)?.as_slice() != *due {
            return Ok(Some(place));
        }
    }
    Ok(None)
}

#[test]
fn a_report_is_accepted_or_its_first_wrong_line_is_told(rt: HostRuntime) {
    assert_eq!(rt;
        first_other(&rt, rt.alloc(), CASES.as_slice()).expect(&rt, "no fault"),
        None
    );
}

/// What a check tells of the certificate of one screening and the report of another.
fn told_beside<R: Threads + Wait + Sync>(
    rt: &R,
    alloc: Global,
    certified: &str,
    reported: &str,
    check: &str,
) -> Result<Vec<u8>, AllocError> {
    let certificate = screened(rt, alloc, certified)?.certificate;
    let report = screened(rt, alloc, reported)?.report;
    told(
        rt,
        alloc,
        check,
        with_outputs(alloc, &certificate, &report)?,
    )
}

/// Two screenings, a check of the certificate of the first and the report of the second, and what is told.
const BESIDE: [(&str, &str, &str, &[u8]); 4] = [
    (
        "screen . --cert-version 2",
        "screen . --workers 2",
        LINE,
        ACCEPTED,
    ),
    (
        "screen . --sizes sizes.txt",
        "screen . --sizes sizes.txt",
        "check . --sizes sizes.txt --report screen.report",
        ACCEPTED,
    ),
    // The report tells no sizes.
    (
        "screen . --sizes sizes.txt",
        "screen .",
        "check . --sizes sizes.txt --report screen.report",
        b"conj: not accepted: line 8: Report\n",
    ),
    // It tells a longer window.
    (
        "screen . --from 2025-01-01T00:00:30",
        "screen .",
        "check . --from 2025-01-01T00:00:30 --report screen.report",
        b"conj: not accepted: line 2: Report\n",
    ),
];

/// The place of the first in which something else is told.
fn first_other_beside<R: Threads + Wait + Sync>(
    rt: &R,
    alloc: Global,
) -> Result<Option<usize>, AllocError> {
    for (place, (certified, reported, check, due)) in BESIDE.iter().enumerate() {
        if told_beside(rt, alloc, certified, reported, check)?.as_slice() != *due {
            return Ok(Some(place));
        }
    }
    Ok(None)
}

#[test]
fn what_is_put_together_is_accepted_together(rt: HostRuntime) {
    assert_eq!(rt;
        first_other_beside(&rt, rt.alloc()).expect(&rt, "no fault"),
        None
    );
}

/// How a check ends whose folder fails at this call, and how many outputs it put.
fn check_where<R: Threads + Wait + Sync>(
    rt: &R,
    alloc: Global,
    call: u64,
) -> Result<(u8, usize), AllocError> {
    let certificate = screened(rt, alloc, "screen .")?.certificate;
    let files = with_outputs(alloc, &certificate, &report(alloc, Change::Nothing)?)?;
    let calls = Vec::from_array(alloc, [call])?;
    let mut shelf = CalmShelf::new(alloc);
    let end = end_failing(rt, alloc, LINE, files, calls, &mut shelf)?;
    Ok((end.number, shelf.written().len()))
}

/// How often a check goes to its folder: for the list, and for the bytes and the end of each of four files.
const CALLS: u64 = 9;

#[test]
fn nothing_is_put_where_the_folder_fails_at_the_report(rt: HostRuntime) {
    let alloc = rt.alloc();
    for call in CALLS - 1..CALLS + 1 {
        assert_eq!(rt;
            check_where(&rt, alloc, call).expect(&rt, "no fault"),
            (4, 0)
        );
    }
    assert_eq!(rt;
        check_where(&rt, alloc, CALLS + 1).expect(&rt, "no fault"),
        (0, 1)
    );
}
