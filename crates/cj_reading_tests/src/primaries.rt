//! What is read of files of primaries.
use cj_kvn::KvnCause;
use cj_sizes::{PrimariesCause, PrimariesFault, are_named, read_primaries};
use std::panic::Expect;

/// The designators of all objects.
const KNOWN: [&[u8]; 4] = [b"A", b"AB", b"2025-001A", b"COMMENTS"];

#[test]
fn each_row_names_one(rt: HostRuntime) {
    let files: [(&[u8], [bool; 4]); 6] = [
        (b"", [false, false, false, false]),
        (b" \t\r\n\nCOMMENT A\n", [false, false, false, false]),
        (b"A", [true, false, false, false]),
        (
            b"\tAB \r\n\r\nCOMMENT any \xff\nA\n",
            [true, true, false, false],
        ),
        (b"2025-001A\nCOMMENTS\n", [false, false, true, true]),
        (b"COMMENTS\nAB\nA\n2025-001A\n", [true, true, true, true]),
    ];
    for (text, marks) in &files {
        let named = read_primaries(rt.alloc(), KNOWN.as_slice(), text).expect(&rt, "no fault");
        let found = are_named(rt.alloc(), &named, KNOWN.as_slice()).expect(&rt, "no fault");
        assert_eq!(rt; found.as_slice(), marks.as_slice());
    }
}

#[test]
fn they_stand_in_the_order_of_their_lines(rt: HostRuntime) {
    let text = b"COMMENTS\n\nA\nAB\n";
    let named = read_primaries(rt.alloc(), KNOWN.as_slice(), text).expect(&rt, "no fault");
    let due: [&[u8]; 3] = [b"COMMENTS", b"A", b"AB"];
    assert_eq!(rt; named.len(), due.len());
    for (id, other) in named.iter().zip(due.as_slice()) {
        assert_eq!(rt; id.as_slice(), *other);
    }
}

#[test]
fn the_first_fault(rt: HostRuntime) {
    let faults: [(&[u8], u32, PrimariesCause); 14] = [
        (b"A A", 1, PrimariesCause::Form),
        (b"A\n\nA AB\n", 3, PrimariesCause::Form),
        (b"META_START", 1, PrimariesCause::Form),
        (b"A = AB", 1, PrimariesCause::Form),
        (b"a = A", 1, PrimariesCause::Kvn(KvnCause::NoLineForm)),
        (b"A\x7f", 1, PrimariesCause::Kvn(KvnCause::NotPrintable)),
        (
            b"B\nA\nA\x01",
            3,
            PrimariesCause::Kvn(KvnCause::NotPrintable),
        ),
        (b"A\nA\n", 2, PrimariesCause::Twice),
        (b"COMMENT\r\nA\n\tAB\nA", 4, PrimariesCause::Twice),
        (b"a", 1, PrimariesCause::Unknown),
        (b"A\nABC\n", 2, PrimariesCause::Unknown),
        (b"2025-001", 1, PrimariesCause::Unknown),
        (b"B\nA A\nA\nA\n", 1, PrimariesCause::Unknown),
        (b"A\nA\nB", 2, PrimariesCause::Twice),
    ];
    for (text, line, cause) in &faults {
        let fault = PrimariesFault::At {
            line: *line,
            cause: *cause,
        };
        assert_eq!(rt;
            read_primaries(rt.alloc(), KNOWN.as_slice(), text).err(),
            Some(fault)
        );
    }
}
