//! Certificates of version 2: written, checked and rewritten.
use crate::catalogues::{files_of as copies_of, made_by};
use crate::certificates::{AT_REST, RESTING, is_certified};
use crate::runs::{certificate_of, is_told, output_of, run, run_at, with_certificate};
use crate::scenes::{CROSSING, files_of};
use cj_base::Tick;
use cj_io::FileBytes;
use std::alloc::{AllocError, Global};
use std::panic::Expect;
use std::sync::Wait;
use std::thread::Threads;

/// The certificate of the two objects at rest in version 2.
pub const AT_REST_2: &[u8] = b"CONJ-CERT 2
WINDOW 1735689600000000 1735689660000000
THRESHOLD 5000000000000
OBJECTS 2
SIZE 1 0
SIZE 2 0
SHELL 1 7000000000000000 7000000000000000
SHELL 2 7005000000000000 7005000000000000
BOX 1 0 1 7000000000000000 7000000000000000 0 0 0 0
BOX 2 0 1 7005000000000000 7005000000000000 0 0 0 0
CELL 1 2 1735689600000000 1735689659999999 N
CELL 1 2 1735689660000000 1735689660000000 N
END
";

/// The box lines of two tracks that cross: a box of the second object round both slots would touch the first one's in the last slot.
const CROSSING_BOXES: &[u8] = b"
BOX 1 0 1 7000000000000000 7000000000000000 -225000000000000 225000000000000 0 0
BOX 2 0 0 7001000000000000 7001000000000000 0 0 -225000000000000 224999992500000
BOX 2 1 1 7001000000000000 7001000000000000 0 0 225000000000000 225000000000000
";

/// The text with another line in the place of one, counted from 1, or without it where the other is empty.
pub fn changed(
    alloc: Global,
    text: &[u8],
    number: usize,
    other: &[u8],
) -> Result<Vec<u8>, AllocError> {
    let mut changed = Vec::new(alloc);
    for (place, line) in text.split(|b| *b == b'\n').enumerate() {
        let line = if number == place + 1 { other } else { line };
        if !line.is_empty() {
            changed.extend_from_slice(line)?;
            changed.push(b'\n')?;
        }
    }
    Ok(changed)
}

const ACCEPTED: &[u8] = b"ACCEPTED\n";

/// Whether a check of a certificate of the resting objects tells this.
fn is_checked<R: Threads + Wait + Sync>(
    rt: &R,
    alloc: Global,
    text: &[u8],
    due: &[u8],
) -> Result<bool, AllocError> {
    let files = with_certificate(alloc, files_of(alloc, RESTING)?, text)?;
    is_told(rt, alloc, "check .", files, due)
}

#[test]
fn objects_at_rest_have_one_box_each(rt: HostRuntime) {
    let alloc = rt.alloc();
    let first = "screen . --cert-version 1";
    let second = "screen . --cert-version 2";
    assert!(rt; is_certified(&rt, alloc, second, RESTING, AT_REST_2).expect(&rt, "no fault"));
    assert!(rt; is_certified(&rt, alloc, first, RESTING, AT_REST).expect(&rt, "no fault"));
    assert!(rt; is_checked(&rt, alloc, AT_REST_2, ACCEPTED).expect(&rt, "no fault"));
}

#[test]
fn a_block_that_would_touch_newly_is_not_joined(rt: HostRuntime) {
    let alloc = rt.alloc();
    let line = "screen . --cert-version 2";
    let text = certificate_of(
        &rt,
        alloc,
        line,
        files_of(alloc, CROSSING).expect(&rt, "no fault"),
    )
    .expect(&rt, "no fault");
    let boxes = text
        .windows(CROSSING_BOXES.len())
        .any(|part| part == CROSSING_BOXES);
    assert!(rt; boxes);
    let files = with_certificate(
        alloc,
        files_of(alloc, CROSSING).expect(&rt, "no fault"),
        &text,
    )
    .expect(&rt, "no fault");
    assert!(rt; is_told(&rt, alloc, "check .", files, ACCEPTED).expect(&rt, "no fault"));
}

/// The number of a line of the certificate in version 2, another line in its place, and what is told then.
type Damage = (usize, &'static [u8], &'static [u8]);

const DAMAGES: [Damage; 3] = [
    (6, b"SIZE 2 1", b"conj: not accepted: line 6: SizeOf\n"),
    (10, b"", b"conj: not accepted: line 10: BoxOf\n"),
    (
        9,
        b"BOX 1 0 2 7000000000000000 7000000000000000 0 0 0 0",
        b"conj: not accepted: line 9: BoxOf\n",
    ),
];

/// The place of the first damage of which something else is told.
fn first_other<R: Threads + Wait + Sync>(
    rt: &R,
    alloc: Global,
    damages: &[Damage],
) -> Result<Option<usize>, AllocError> {
    for (place, (number, other, due)) in damages.iter().enumerate() {
        let text = changed(alloc, AT_REST_2, *number, other)?;
        if !is_checked(rt, alloc, &text, due)? {
            return Ok(Some(place));
        }
    }
    Ok(None)
}

#[test]
fn damages_of_version_2_are_told(rt: HostRuntime) {
    assert_eq!(rt;
        first_other(&rt, rt.alloc(), DAMAGES.as_slice()).expect(&rt, "no fault"),
        None
    );
}

/// Whether a command line that rewrites a certificate puts this one, and tells this.
fn is_rewritten<R: Threads + Wait + Sync>(
    rt: &R,
    alloc: Global,
    line: &str,
    files: Vec<FileBytes>,
    certificate: &[u8],
    told: &[u8],
) -> Result<bool, AllocError> {
    let (_, shelf) = run_at(rt, alloc, line, files, Tick::FIRST)?;
    let outputs = shelf.written();
    Ok(output_of(outputs, b"screen.cert2") == certificate && output_of(outputs, b"-") == told)
}

/// The same over the resting objects, of a certificate with this text.
fn is_rewritten_at_rest<R: Threads + Wait + Sync>(
    rt: &R,
    alloc: Global,
    text: &[u8],
    certificate: &[u8],
    told: &[u8],
) -> Result<bool, AllocError> {
    let files = with_certificate(alloc, files_of(alloc, RESTING)?, text)?;
    is_rewritten(rt, alloc, "rewrite .", files, certificate, told)
}

const REWRITTEN: &[u8] = b"REWRITTEN\n";

#[test]
fn a_certificate_is_rewritten(rt: HostRuntime) {
    let alloc = rt.alloc();
    assert!(rt;
        is_rewritten_at_rest(&rt, alloc, AT_REST, AT_REST_2, REWRITTEN).expect(&rt, "no fault")
    );
    assert!(rt;
        is_rewritten_at_rest(&rt, alloc, AT_REST_2, AT_REST_2, REWRITTEN).expect(&rt, "no fault")
    );
    let without_a_box = changed(alloc, AT_REST, 7, b"").expect(&rt, "no fault");
    assert!(rt; is_rewritten_at_rest(&rt, alloc, &without_a_box, b"", b"").expect(&rt, "no fault"));
}

/// Whether a certificate of a catalogue is accepted, and comes to this one when it is rewritten.
fn is_accepted_and_rewritten<R: Threads + Wait + Sync>(
    rt: &R,
    alloc: Global,
    catalogue: &[FileBytes],
    text: &[u8],
    second: &[u8],
) -> Result<bool, AllocError> {
    let files = with_certificate(alloc, copies_of(alloc, catalogue)?, text)?;
    if !is_told(rt, alloc, "check . --threshold 1000000", files, ACCEPTED)? {
        return Ok(false);
    }
    let files = with_certificate(alloc, copies_of(alloc, catalogue)?, text)?;
    let line = "rewrite . --threshold 1000000";
    is_rewritten(rt, alloc, line, files, second, REWRITTEN)
}

/// Whether both versions of a catalogue's certificate are accepted, and come to the second when they are rewritten.
fn are_both_accepted<R: Threads + Wait + Sync>(
    rt: &R,
    alloc: Global,
    catalogue: &[FileBytes],
    first: &[u8],
    second: &[u8],
) -> Result<bool, AllocError> {
    Ok(
        is_accepted_and_rewritten(rt, alloc, catalogue, first, second)?
            && is_accepted_and_rewritten(rt, alloc, catalogue, second, second)?,
    )
}

#[test]
fn each_version_of_a_catalogue_is_accepted(rt: HostRuntime) {
    let alloc = rt.alloc();
    let line = "generate . --seed 7 --objects 6 --minutes 10";
    let catalogue = made_by(&rt, alloc, line).expect(&rt, "no fault");
    let line = "screen . --threshold 1000000";
    let first = run(
        &rt,
        alloc,
        line,
        copies_of(alloc, &catalogue).expect(&rt, "no fault"),
    )
    .expect(&rt, "no fault");
    let line = "screen . --threshold 1000000 --cert-version 2";
    let second = run(
        &rt,
        alloc,
        line,
        copies_of(alloc, &catalogue).expect(&rt, "no fault"),
    )
    .expect(&rt, "no fault");
    let (old, new) = (first.certificate.as_slice(), second.certificate.as_slice());
    assert!(rt; first.report.as_slice() == second.report.as_slice());
    assert!(rt; new.len() < old.len());
    assert!(rt; are_both_accepted(&rt, alloc, &catalogue, old, new).expect(&rt, "no fault"));
}
