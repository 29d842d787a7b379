//! Certificates that are checked.
use crate::certificates::RESTING;
use crate::runs::{end_failing, file, told};
use crate::scenes::files_of;
use cj_io::{CalmShelf, FileBytes};
use std::alloc::{AllocError, Global};
use std::panic::Expect;
use std::sync::Wait;
use std::thread::Threads;

/// The lines of their certificate.
pub const LINES: [&[u8]; 13] = [
    b"CONJ-CERT 1",
    b"WINDOW 1735689600000000 1735689660000000",
    b"THRESHOLD 5000000000000",
    b"OBJECTS 2",
    b"SHELL 1 7000000000000000 7000000000000000",
    b"SHELL 2 7005000000000000 7005000000000000",
    b"BOX 1 0 7000000000000000 7000000000000000 0 0 0 0",
    b"BOX 1 1 7000000000000000 7000000000000000 0 0 0 0",
    b"BOX 2 0 7005000000000000 7005000000000000 0 0 0 0",
    b"BOX 2 1 7005000000000000 7005000000000000 0 0 0 0",
    b"CELL 1 2 1735689600000000 1735689659999999 N",
    b"CELL 1 2 1735689660000000 1735689660000000 N",
    b"END",
];

/// What is done to a certificate. Lines are counted from 1.
#[derive(Clone, Copy)]
pub enum Change {
    /// It is left as it is.
    Nothing,
    /// A line is left out.
    Without(usize),
    /// A line stands twice.
    Twice(usize),
    /// It ends in a line, behind so many bytes of it.
    Cut(usize, usize),
    /// Another line stands in its place.
    With(usize, &'static [u8]),
}

/// Appends what stands in the place of the line with this number.
fn push_changed(
    text: &mut Vec<u8>,
    here: usize,
    line: &[u8],
    change: Change,
) -> Result<(), AllocError> {
    match change {
        Change::Without(number) if number == here => Ok(()),
        Change::With(number, other) if number == here => push_line(text, other),
        Change::Cut(number, bytes) if number == here => {
            text.extend_from_slice(line.get(..bytes).unwrap_or(line))
        }
        Change::Cut(number, _) if number < here => Ok(()),
        Change::Twice(number) if number == here => {
            push_line(text, line)?;
            push_line(text, line)
        }
        _ => push_line(text, line),
    }
}

/// The text of the certificate with a change.
fn certificate(alloc: Global, change: Change) -> Result<Vec<u8>, AllocError> {
    let mut text = Vec::new(alloc);
    for (place, line) in LINES.iter().enumerate() {
        push_changed(&mut text, place + 1, line, change)?;
    }
    Ok(text)
}

fn push_line(text: &mut Vec<u8>, line: &[u8]) -> Result<(), AllocError> {
    text.extend_from_slice(line)?;
    text.push(b'\n')?;
    Ok(())
}

/// The certificate with a change, as a file of this name.
fn certificate_file(alloc: Global, name: &str, change: Change) -> Result<FileBytes, AllocError> {
    let text = certificate(alloc, change)?;
    file(alloc, name.as_bytes(), &text)
}

/// The resting objects, and files with certificates of these names and changes behind them.
fn with_certificates(
    alloc: Global,
    certificates: &[(&str, Change)],
) -> Result<Vec<FileBytes>, AllocError> {
    let mut files = files_of(alloc, RESTING)?;
    for (name, change) in certificates {
        files.push(certificate_file(alloc, name, *change)?)?;
    }
    Ok(files)
}

/// A command line, what is done to the certificate, and what is told: on standard output, or of the failure.
type Case<'a> = (&'a str, Change, &'a [u8]);

const ACCEPTED: &[u8] = b"ACCEPTED\n";

const CASES: [Case; 15] = [
    ("check .", Change::Nothing, ACCEPTED),
    // The text.
    (
        "check .",
        Change::With(11, b"CELL 1 2 1735689600000000 1735689659999999 X"),
        b"conj: not accepted: line 11: Text Form\n",
    ),
    (
        "check .",
        Change::With(2, b"WINDOW 1735689600000000 4102444800000000"),
        b"conj: not accepted: line 2: Text Range\n",
    ),
    // What it is a certificate of.
    (
        "check . --from 2025-01-01T00:00:01",
        Change::Nothing,
        b"conj: not accepted: line 2: Header\n",
    ),
    (
        "check . --threshold 4999",
        Change::Nothing,
        b"conj: not accepted: line 3: Header\n",
    ),
    (
        "check .",
        Change::With(4, b"OBJECTS 3"),
        b"conj: not accepted: line 4: Header\n",
    ),
    // Shells and boxes.
    (
        "check .",
        Change::With(6, b"SHELL 2 NONE"),
        b"conj: not accepted: line 6: ShellOf\n",
    ),
    (
        "check .",
        Change::With(5, b"SHELL 1 7000000000000001 7000000000000001"),
        b"conj: not accepted: line 5: ShellOf\n",
    ),
    (
        "check .",
        Change::With(7, b"BOX 1 0 7000000000000001 7000000000000001 0 0 0 0"),
        b"conj: not accepted: line 7: BoxOf\n",
    ),
    (
        "check .",
        Change::With(10, b"BOX 2 1 7005000000000001 7005000000000001 0 0 0 0"),
        b"conj: not accepted: line 10: BoxOf\n",
    ),
    // Cells.
    (
        "check .",
        Change::With(11, b"CELL 1 2 1735689600000000 1735689659999998 N"),
        b"conj: not accepted: line 12: Untiled\n",
    ),
    (
        "check .",
        Change::With(11, b"CELL 1 2 1735689600000000 1735689659999999 F"),
        b"conj: not accepted: line 11: NotFar\n",
    ),
    // What is exactly at the threshold is in the band too.
    (
        "check .",
        Change::With(11, b"CELL 1 2 1735689600000000 1735689659999999 U"),
        ACCEPTED,
    ),
    // The window comes before the certificate, and another name has none.
    (
        "check . --from 2025-01-01T00:00:00 --to 2025-01-15T00:00:00.000001",
        Change::Without(13),
        b"conj: limit: Window 1209600000001\n",
    ),
    (
        "check . --cert other.cert",
        Change::Nothing,
        b"conj: not accepted: line 0: NoFile\n",
    ),
];

/// Whether this is told of such certificates behind the resting objects.
pub fn is_told<R: Threads + Wait + Sync>(
    rt: &R,
    alloc: Global,
    line: &str,
    certificates: &[(&str, Change)],
    due: &[u8],
) -> Result<bool, AllocError> {
    let told = told(rt, alloc, line, with_certificates(alloc, certificates)?)?;
    Ok(told.as_slice() == due)
}

/// The place of the first case in which something else is told.
fn first_other<R: Threads + Wait + Sync>(
    rt: &R,
    alloc: Global,
    cases: &[Case],
) -> Result<Option<usize>, AllocError> {
    for (place, (line, change, due)) in cases.iter().enumerate() {
        if !is_told(rt, alloc, line, &[("screen.cert", *change)], due)? {
            return Ok(Some(place));
        }
    }
    Ok(None)
}

#[test]
fn a_certificate_is_accepted_or_its_first_failure_is_told(rt: HostRuntime) {
    assert_eq!(rt;
        first_other(&rt, rt.alloc(), CASES.as_slice()).expect(&rt, "no fault"),
        None
    );
}

#[test]
fn the_first_file_of_the_name_is_checked(rt: HostRuntime) {
    let alloc = rt.alloc();
    let good = ("a.cert", Change::Nothing);
    let bad = ("a.cert", Change::Without(11));
    let line = "check . --cert=a.cert";
    let untiled = b"conj: not accepted: line 11: Untiled\n";
    assert!(rt; is_told(&rt, alloc, line, &[good, bad], ACCEPTED).expect(&rt, "no fault"));
    assert!(rt; is_told(&rt, alloc, line, &[bad, good], untiled).expect(&rt, "no fault"));
}

/// How a check ends whose folder fails at this call, and how many outputs it put.
fn check_where<R: Threads + Wait + Sync>(
    rt: &R,
    alloc: Global,
    call: u64,
) -> Result<(u8, usize), AllocError> {
    let files = with_certificates(alloc, &[("screen.cert", Change::Nothing)])?;
    let calls = Vec::from_array(alloc, [call])?;
    let mut shelf = CalmShelf::new(alloc);
    let end = end_failing(rt, alloc, "check .", files, calls, &mut shelf)?;
    Ok((end.number, shelf.written().len()))
}

/// How often a check goes to its folder: for the list, and for the bytes and the end of each of three files.
const CALLS: u64 = 7;

#[test]
fn nothing_is_put_where_the_folder_fails_at_any_call(rt: HostRuntime) {
    let alloc = rt.alloc();
    for call in 1..CALLS + 1 {
        assert_eq!(rt;
            check_where(&rt, alloc, call).expect(&rt, "no fault"),
            (4, 0)
        );
    }
    assert_eq!(rt;
        check_where(&rt, alloc, CALLS + 1).expect(&rt, "no fault"),
        (0, 1)
    );
}
