//! Texts that are no certificates, each with its first fault.
use cj_cert_text::{CertCause, CertFault, read_cert};
use std::alloc::{AllocError, Global};
use std::panic::Expect;

const FORM: CertCause = CertCause::Form;

const RANGE: CertCause = CertCause::Range;

const END: CertCause = CertCause::End;

/// The first fault of a text: its line, and its cause.
fn fault(alloc: Global, text: &[u8]) -> Option<(u32, CertCause)> {
    if text.len() > u32::MAX as usize {
        return None;
    }
    match read_cert(alloc, text) {
        Err(CertFault::At { line, cause }) => Some((line, cause)),
        _ => None,
    }
}

/// Texts, and where they are at fault.
const TEXTS: [(&[u8], Option<(u32, CertCause)>); 35] = [
    (b"", Some((1, END))),
    (b"\n", Some((1, FORM))),
    (b"CONJ-CERT 1", Some((2, END))),
    (b"CONJ-CERT 1\n", Some((2, END))),
    (b"CONJ-CERT 2", Some((2, END))),
    (b"CONJ-CERT 21\n", Some((1, FORM))),
    (b"CONJ-CERT 3\n", Some((1, FORM))),
    (b"CONJ-CERT 01\n", Some((1, FORM))),
    (b"CONJ-CERT 1\r\n", Some((1, FORM))),
    (b"CONJ-CERT\n", Some((1, FORM))),
    (b"THRESHOLD 1\n", Some((1, FORM))),
    (b"CONJ-CERT 1\nCONJ-CERT 1\n", Some((2, FORM))),
    (b"CONJ-CERT 1\nTHRESHOLD 0\n", Some((2, FORM))),
    (
        b"CONJ-CERT 1\nWINDOW 63071999999999 63072000000000\n",
        Some((2, RANGE)),
    ),
    (
        b"CONJ-CERT 1\nWINDOW 63072000000000 4102444800000000\n",
        Some((2, RANGE)),
    ),
    (
        b"CONJ-CERT 1\nWINDOW 4102444799999999 63072000000000\n",
        Some((3, END)),
    ),
    (b"CONJ-CERT 1\nWINDOW 63072000000000\n", Some((2, FORM))),
    (
        b"CONJ-CERT 1\nWINDOW 63072000000000 63072000000000\nTHRESHOLD 0\n",
        Some((3, RANGE)),
    ),
    (
        b"CONJ-CERT 1\nWINDOW 63072000000000 63072000000000\nTHRESHOLD 10000000000000000\n",
        Some((4, END)),
    ),
    (
        b"CONJ-CERT 1\nWINDOW 63072000000000 63072000000000\nTHRESHOLD 10000000000000001\n",
        Some((3, RANGE)),
    ),
    (
        b"CONJ-CERT 1\nWINDOW 63072000000000 63072000000000\nTHRESHOLD 1\nOBJECTS -1\n",
        Some((4, RANGE)),
    ),
    (
        b"CONJ-CERT 1\nWINDOW 63072000000000 63072000000000\nTHRESHOLD 1\nOBJECTS 2000\n",
        Some((5, END)),
    ),
    (
        b"CONJ-CERT 1\nWINDOW 63072000000000 63072000000000\nTHRESHOLD 1\nOBJECTS 2001\n",
        Some((4, RANGE)),
    ),
    (
        b"CONJ-CERT 1\nWINDOW 63072000000000 63072000000000\nTHRESHOLD 1\nOBJECTS 0\nOBJECTS 0\n",
        Some((5, FORM)),
    ),
    (
        b"CONJ-CERT 1\nWINDOW 63072000000000 63072000000000\nTHRESHOLD 1\nOBJECTS 0\n",
        Some((5, END)),
    ),
    (
        b"CONJ-CERT 1\nWINDOW 63072000000000 63072000000000\nTHRESHOLD 1\nOBJECTS 0\nEN",
        Some((5, FORM)),
    ),
    (
        b"CONJ-CERT 1\nWINDOW 63072000000000 63072000000000\nTHRESHOLD 1\nOBJECTS 0\nEND",
        Some((6, END)),
    ),
    (
        b"CONJ-CERT 1\nWINDOW 63072000000000 63072000000000\nTHRESHOLD 1\nOBJECTS 0\nEND\n",
        None,
    ),
    (
        b"CONJ-CERT 1\nWINDOW 63072000000000 63072000000000\nTHRESHOLD 1\nOBJECTS 0\nEND\n\n",
        Some((6, END)),
    ),
    (
        b"CONJ-CERT 1\nWINDOW 63072000000000 63072000000000\nTHRESHOLD 1\nOBJECTS 0\nEND\nEND",
        Some((6, END)),
    ),
    (
        b"CONJ-CERT 1\nWINDOW 63072000000000 63072000000000\nTHRESHOLD 1\nOBJECTS 0\nEND 1\n",
        Some((5, FORM)),
    ),
    (
        b"CONJ-CERT 1\nWINDOW 63072000000000 63072000000000\nTHRESHOLD 1\nOBJECTS 0\nSHELL 1 0 0\nSHELL 1 NONE\nEND\n",
        None,
    ),
    (
        b"CONJ-CERT 1\nWINDOW 63072000000000 63072000000000\nTHRESHOLD 1\nOBJECTS 0\nBOX 1 0 0 0 0 0 0 0\nSHELL 2001 NONE\nEND\n",
        Some((6, FORM)),
    ),
    (
        b"CONJ-CERT 1\nWINDOW 63072000000000 63072000000000\nTHRESHOLD 1\nOBJECTS 0\nCELL 1 2 63072000000000 63072000000000 F\nBOX 1 0 0 0 0 0 0 0\n",
        Some((6, FORM)),
    ),
    (
        b"CONJ-CERT 1\nWINDOW 63072000000000 63072000000000\nTHRESHOLD 1\nOBJECTS 0\nSHELL 1 0 0\nSHELL 1 1 0",
        Some((6, RANGE)),
    ),
];

#[test]
fn a_text_has_its_first_fault(rt: HostRuntime) {
    for (text, wanted) in &TEXTS {
        assert_eq!(rt; fault(rt.alloc(), text), *wanted);
    }
}

/// Lines in front of the last, and why they may not stand there in version 1 and in version 2.
const LINES: [(&[u8], Option<CertCause>, Option<CertCause>); 69] = [
    (b"SIZE 1 0", Some(FORM), None),
    (b"SIZE 1 1000000000000", Some(FORM), None),
    (b"SIZE 1 1000000000001", Some(FORM), Some(RANGE)),
    (b"SIZE 1 -1", Some(FORM), Some(RANGE)),
    (b"SIZE 0 0", Some(FORM), Some(RANGE)),
    (b"SIZE 2000 0", Some(FORM), None),
    (b"SIZE 2001 0", Some(FORM), Some(RANGE)),
    (b"SIZE 1", Some(FORM), Some(FORM)),
    (b"PRIMARY 1", Some(FORM), Some(FORM)),
    (b"SHELL 1 0 1000000000000000000", None, None),
    (b"SHELL 1 0 1000000000000000001", Some(RANGE), Some(RANGE)),
    (b"SHELL 1 1 0", Some(RANGE), Some(RANGE)),
    (b"SHELL 1 -1 0", Some(RANGE), Some(RANGE)),
    (b"SHELL 1 NONE", None, None),
    (b"SHELL 2001 NONE", Some(RANGE), Some(RANGE)),
    (b"SHELL 1 NONE 0", Some(FORM), Some(FORM)),
    (b"SHELL 1 none", Some(FORM), Some(FORM)),
    (b"SHELL NONE", Some(FORM), Some(FORM)),
    (b"SHELL 1 0", Some(FORM), Some(FORM)),
    (b"SHELL 1 0 9999999999999999999", Some(RANGE), Some(RANGE)),
    (b"SHELL 1 0 18446744073709551617", Some(RANGE), Some(RANGE)),
    (b"SHELL 1 0 184467440737095516160", Some(RANGE), Some(RANGE)),
    (
        b"SHELL 1 0 1000000000000000000000000000000000000000000000000000000000000000000000000000000000000000000000000000",
        Some(RANGE),
        Some(RANGE),
    ),
    (
        b"SHELL 1 -1000000000000000000000000000000000000000000000000000000000000000000000000000000000000000000000000000 0",
        Some(RANGE),
        Some(RANGE),
    ),
    (b"SHELL 1 0 00", Some(FORM), Some(FORM)),
    (b"SHELL 01 0 0", Some(FORM), Some(FORM)),
    (b"SHELL +1 0 0", Some(FORM), Some(FORM)),
    (b"SHELL 1 -0 0", Some(FORM), Some(FORM)),
    (b"SHELL 1 - 0", Some(FORM), Some(FORM)),
    (b"SHELL 1 -01 0", Some(FORM), Some(FORM)),
    (b"SHELL 1 0 1a", Some(FORM), Some(FORM)),
    (b"SHELL  1 0 0", Some(FORM), Some(FORM)),
    (b"SHELL 1 0 0 ", Some(FORM), Some(FORM)),
    (b" SHELL 1 0 0", Some(FORM), Some(FORM)),
    (b"SHELL 1 0 0\r", Some(FORM), Some(FORM)),
    (b"shell 1 0 0", Some(FORM), Some(FORM)),
    (b"", Some(FORM), Some(FORM)),
    (b"BOX 1 0 0 0 0 0 0 0", None, Some(FORM)),
    (b"BOX 1 0 0 0 0 0 0 0 0", Some(FORM), None),
    (b"BOX 1 0 0 0 0 0 0 0 0 0", Some(FORM), Some(FORM)),
    (b"BOX 1 0 0 0 0 0 0 0 0 0 0", Some(FORM), Some(FORM)),
    (b"BOX 1 4294967295 0 0 0 0 0 0", None, Some(FORM)),
    (b"BOX 1 4294967296 0 0 0 0 0 0", Some(RANGE), Some(FORM)),
    (b"BOX 1 -1 0 0 0 0 0 0", Some(RANGE), Some(FORM)),
    (b"BOX 1 0 4294967295 0 0 0 0 0 0", Some(FORM), None),
    (b"BOX 1 0 4294967296 0 0 0 0 0 0", Some(FORM), Some(RANGE)),
    (b"BOX 1 1 0 0 0 0 0 0 0", Some(FORM), Some(RANGE)),
    (b"BOX 0 0 0 0 0 0 0 0", Some(RANGE), Some(FORM)),
    (
        b"BOX 1 0 -9223372036854775808 9223372036854775807 0 0 0 0",
        None,
        Some(FORM),
    ),
    (
        b"BOX 1 0 -9223372036854775809 0 0 0 0 0",
        Some(RANGE),
        Some(FORM),
    ),
    (
        b"BOX 1 0 0 9223372036854775808 0 0 0 0",
        Some(RANGE),
        Some(FORM),
    ),
    (
        b"BOX 1 0 0 1000000000000000000000000000000000000000000000000000000000000000000000000000000000000000000000000000 0 0 0 0",
        Some(RANGE),
        Some(FORM),
    ),
    (b"BOX 1 0 1 0 0 0 0 0", Some(RANGE), Some(FORM)),
    (b"BOX 1 0 0 0 1 0 0 0", Some(RANGE), Some(FORM)),
    (b"BOX 1 0 0 0 0 0 0 -1", Some(RANGE), Some(FORM)),
    (b"CELL 1 2 63072000000000 63072000000000 F", None, None),
    (b"CELL 1 2000 63072000000000 4102444799999999 U", None, None),
    (
        b"CELL 1 2001 63072000000000 63072000000000 N",
        Some(RANGE),
        Some(RANGE),
    ),
    (
        b"CELL 0 2 63072000000000 63072000000000 N",
        Some(RANGE),
        Some(RANGE),
    ),
    (
        b"CELL 2 2 63072000000000 63072000000000 N",
        Some(RANGE),
        Some(RANGE),
    ),
    (
        b"CELL 2 1 63072000000000 63072000000000 N",
        Some(RANGE),
        Some(RANGE),
    ),
    (
        b"CELL 1 2 63071999999999 63072000000000 N",
        Some(RANGE),
        Some(RANGE),
    ),
    (
        b"CELL 1 2 63072000000000 4102444800000000 N",
        Some(RANGE),
        Some(RANGE),
    ),
    (
        b"CELL 1 2 63072000000001 63072000000000 N",
        Some(RANGE),
        Some(RANGE),
    ),
    (
        b"CELL 1 2 63072000000000 63072000000000",
        Some(FORM),
        Some(FORM),
    ),
    (
        b"CELL 1 2 63072000000000 63072000000000 X",
        Some(FORM),
        Some(FORM),
    ),
    (
        b"CELL 1 2 63072000000000 63072000000000 FN",
        Some(FORM),
        Some(FORM),
    ),
    (
        b"CELL 1 2 63072000000000 63072000000000 N 0",
        Some(FORM),
        Some(FORM),
    ),
    (b"CELL 1 2 63072000000000 N", Some(FORM), Some(FORM)),
];

/// A text of this version with one line in front of the last.
fn text_with(alloc: Global, version: &[u8], line: &[u8]) -> Result<Vec<u8>, AllocError> {
    let mut text = Vec::from_slice(alloc, b"CONJ-CERT ")?;
    text.extend_from_slice(version)?;
    text.extend_from_slice(b"\nWINDOW 63072000000000 63072000000000\nTHRESHOLD 1\nOBJECTS 0\n")?;
    text.extend_from_slice(line)?;
    text.extend_from_slice(b"\nEND\n")?;
    Ok(text)
}

/// What is wrong with a line in front of the last.
fn line_fault(
    alloc: Global,
    version: &[u8],
    line: &[u8],
) -> Result<Option<(u32, CertCause)>, AllocError> {
    let text = text_with(alloc, version, line)?;
    Ok(fault(alloc, &text))
}

#[test]
fn a_line_has_its_fault_in_each_version(rt: HostRuntime) {
    for (line, first, second) in &LINES {
        assert_eq!(rt;
            line_fault(rt.alloc(), b"1", line).expect(&rt, "no fault"),
            first.map(|cause| (5, cause))
        );
        assert_eq!(rt;
            line_fault(rt.alloc(), b"2", line).expect(&rt, "no fault"),
            second.map(|cause| (5, cause))
        );
    }
}
