use cj_base::Text;
use cj_kvn::{
    KvnCause, KvnFault, Line, LineCursor, LineFault, LineKind, MarkKind, Range32, field,
    read_lines, row_fields,
};
use std::panic::Expect;

#[test]
fn each_kind_of_line(rt: HostRuntime) {
    let bytes =
        b"CCSDS_OEM_VERS = 2.0\r\n\r\n  COMMENT\tany \xff\nMETA_START\n  2025 7000\t1 \nA = B = \t";
    let lines = read_lines(rt.alloc(), bytes).expect(&rt, "no fault");
    let first = LineKind::Pair {
        key: Range32 { first: 0, past: 14 },
        value: Range32 {
            first: 17,
            past: 20,
        },
    };
    let fifth = LineKind::Row {
        text: Range32 {
            first: 53,
            past: 64,
        },
    };
    let last = LineKind::Pair {
        key: Range32 {
            first: 66,
            past: 67,
        },
        value: Range32 {
            first: 70,
            past: 73,
        },
    };
    let expected = [
        Line {
            number: 1,
            kind: first,
        },
        Line {
            number: 2,
            kind: LineKind::Blank,
        },
        Line {
            number: 3,
            kind: LineKind::Comment,
        },
        Line {
            number: 4,
            kind: LineKind::Mark(MarkKind::MetaStart),
        },
        Line {
            number: 5,
            kind: fifth,
        },
        Line {
            number: 6,
            kind: last,
        },
    ];
    assert_eq!(rt; lines.as_slice(), expected.as_slice());
}

#[test]
fn fields_of_a_row(rt: HostRuntime) {
    let bytes = b"  2025 7000\t1 ";
    let row = Range32 { first: 1, past: 14 };
    assert_eq!(rt; field(bytes, row, 0), Some(Range32 { first: 2, past: 6 }));
    assert_eq!(rt; field(bytes, row, 1), Some(Range32 { first: 7, past: 11 }));
    assert_eq!(rt;
        field(bytes, row, 2),
        Some(Range32 {
            first: 12,
            past: 13
        })
    );
    assert_eq!(rt; field(bytes, row, 3), None);
    assert_eq!(rt; field(b" \t ", Range32 { first: 0, past: 3 }, 0), None);
}

#[test]
fn fields_found_in_one_pass(rt: HostRuntime) {
    let row = row_fields(b"  2025 7000\t1 ", Range32 { first: 1, past: 14 });
    assert_eq!(rt; row.count, 3);
    assert_eq!(rt; row.found[1], Range32 { first: 7, past: 11 });
    let ten = row_fields(b"0 1 2 3 4 5 6 7 8 9", Range32 { first: 0, past: 19 });
    assert_eq!(rt; ten.count, 10);
    let last = Range32 {
        first: 18,
        past: 19,
    };
    assert_eq!(rt; ten.found[9], last);
    let more = row_fields(b"0 1 2 3 4 5 6 7 8 9 a b", Range32 { first: 0, past: 23 });
    assert_eq!(rt; more.count, 11);
    assert_eq!(rt; more.found[9], last);
    let none = row_fields(b" \t ", Range32 { first: 0, past: 3 });
    assert_eq!(rt; none.count, 0);
}

#[test]
fn the_first_fault(rt: HostRuntime) {
    let texts: [(&[u8], u32, KvnCause); 11] = [
        (b"KEY = 1\nbad key = 2\n", 2, KvnCause::NoLineForm),
        (b"= 1", 1, KvnCause::NoLineForm),
        (b"a = 1\nK = \x01\n", 1, KvnCause::NoLineForm),
        (b"K = \x01\na = 1\n", 1, KvnCause::NotPrintable),
        (b"\n\nkey\x7f = 1", 3, KvnCause::NotPrintable),
        (b"K = 1\rL = 2\n", 1, KvnCause::NotPrintable),
        (b"K = 1\r", 1, KvnCause::NotPrintable),
        (b"COMMENT\r", 1, KvnCause::NotPrintable),
        (b"KEY = 1\r\n\t\x08\r\n", 2, KvnCause::NotPrintable),
        (b"a = b = c\n", 1, KvnCause::NoLineForm),
        (b"COMMENT\r\r\n", 1, KvnCause::NotPrintable),
    ];
    for (text, line, cause) in &texts {
        let fault = KvnFault::At {
            line: *line,
            cause: *cause,
        };
        assert_eq!(rt; read_lines(rt.alloc(), text).err(), Some(fault));
    }
}

#[test]
fn lines_one_after_another(rt: HostRuntime) {
    let bytes = b"META_STOP\r\n\n 7\ta";
    let expected = [
        Line {
            number: 1,
            kind: LineKind::Mark(MarkKind::MetaStop),
        },
        Line {
            number: 2,
            kind: LineKind::Blank,
        },
        Line {
            number: 3,
            kind: LineKind::Row {
                text: Range32 {
                    first: 13,
                    past: 16,
                },
            },
        },
    ];
    let mut left = LineCursor::new(bytes);
    for line in &expected {
        assert_eq!(rt; left.next_line(), Ok(Some(*line)));
    }
    assert_eq!(rt; left.next_line(), Ok(None));
    assert_eq!(rt; left.next_line(), Ok(None));
    assert_eq!(rt; left.check_rest(), Ok(()));
}

#[test]
fn a_fault_behind_lines_with_forms(rt: HostRuntime) {
    let bytes = b"A = 1\n\nb = 2\nC = \x01\n";
    let fault = LineFault {
        line: 3,
        cause: KvnCause::NoLineForm,
    };
    let mut left = LineCursor::new(bytes);
    assert!(rt; left.next_line().is_ok());
    assert!(rt; left.next_line().is_ok());
    assert_eq!(rt; left.next_line(), Err(fault));
    assert_eq!(rt; LineCursor::new(bytes).check_rest(), Err(fault));
    let mut behind = LineCursor::new(b"A = 1\nC = \x01");
    assert!(rt; behind.next_line().is_ok());
    assert_eq!(rt;
        behind.check_rest(),
        Err(LineFault {
            line: 2,
            cause: KvnCause::NotPrintable,
        })
    );
}

#[test]
fn ends_of_lines(rt: HostRuntime) {
    let counts: [(&[u8], usize); 6] = [
        (b"", 0),
        (b"\n", 1),
        (b"\r\n", 1),
        (b"COMMENT\r\n", 1),
        (b"COMMENTS", 1),
        (b"A = 1\nB = 2", 2),
    ];
    for (text, count) in &counts {
        assert_eq!(rt;
            read_lines(rt.alloc(), text).expect(&rt, "no fault").len(),
            *count
        );
    }
}

#[test]
fn a_tab_in_a_value_is_a_space(rt: HostRuntime) {
    let value = Text::of_value(rt.alloc(), b"SAT\tA").expect(&rt, "no fault");
    let text = Text::copy_of(rt.alloc(), b"SAT A").expect(&rt, "no fault");
    assert_eq!(rt; value, text);
    let next = Text::copy_of(rt.alloc(), b"SAT B").expect(&rt, "no fault");
    assert!(rt; text < next);
}
