use cj_kvn::KvnCause;
use cj_sizes::{SizesCause, SizesFault, radii_of, radius_of, read_sizes};
use std::panic::Expect;

#[test]
fn a_radius_is_in_metres_with_nine_places(rt: HostRuntime) {
    let radii: [(&[u8], u64); 13] = [
        (b"A 1.5", 1_500_000_000),
        (b"A 0", 0),
        (b"A -0", 0),
        (b"A -0.0000000004", 0),
        (b"A 0.000000001", 1),
        (b"A 0.0000000014", 1),
        (b"A 0.0000000015", 2),
        (b"A 1.499999999", 1_499_999_999),
        (b"A +.5", 500_000_000),
        (b"A 2.5e-3", 2_500_000),
        (b"A 1000", 1_000_000_000_000),
        (b"A 1E3", 1_000_000_000_000),
        (b"A 1000.0000000004", 1_000_000_000_000),
    ];
    for (text, radius) in &radii {
        let lines = read_sizes(rt.alloc(), text).expect(&rt, "no fault");
        assert_eq!(rt; lines.len(), 1);
        assert_eq!(rt; radius_of(&lines, b"A"), *radius);
    }
}

#[test]
fn blank_lines_and_comments_say_nothing(rt: HostRuntime) {
    let counts: [(&[u8], usize); 7] = [
        (b"", 0),
        (b" \t\r\n\n", 0),
        (b"COMMENT 1\n", 0),
        (b"COMMENT any \xff\r\n\r\n\t2025-001A\t1.5 \r\n", 1),
        (b"A 1\n\nCOMMENT\nB 1\n", 2),
        (b"A 1\na 1\nAB 1", 3),
        (b"COMMENTS 1", 1),
    ];
    for (text, count) in &counts {
        assert_eq!(rt;
            read_sizes(rt.alloc(), text).expect(&rt, "no fault").len(),
            *count
        );
    }
}

#[test]
fn the_first_fault(rt: HostRuntime) {
    let faults: [(&[u8], u32, SizesCause); 23] = [
        (b"2025-001A", 1, SizesCause::Form),
        (b"2025-001A x", 1, SizesCause::Number),
        (b"2025-001A -1", 1, SizesCause::Range),
        (b"2025-001A 1000.000000001", 1, SizesCause::Range),
        (b"A 1\nA 1\n", 2, SizesCause::Twice),
        (b"A 1 m", 1, SizesCause::Form),
        (b"META_START", 1, SizesCause::Form),
        (b"A = 1", 1, SizesCause::Form),
        (b"A=B 1", 1, SizesCause::Form),
        (b"a=B 1", 1, SizesCause::Kvn(KvnCause::NoLineForm)),
        (b"A\x7f 1", 1, SizesCause::Kvn(KvnCause::NotPrintable)),
        (
            b"A 1\nA 1\nB\x01",
            3,
            SizesCause::Kvn(KvnCause::NotPrintable),
        ),
        (b"A\n= 1\n", 2, SizesCause::Kvn(KvnCause::NoLineForm)),
        (b"A 1,5", 1, SizesCause::Number),
        (b"A 1e40", 1, SizesCause::Range),
        (b"A 1e27", 1, SizesCause::Range),
        (b"A -0.000000001", 1, SizesCause::Range),
        (b"A 1\nA -1", 2, SizesCause::Range),
        (b"A 1\nA x", 2, SizesCause::Number),
        (b"A 1\nA", 2, SizesCause::Form),
        (b"\r\n \t\nCOMMENT\nA x\nA", 4, SizesCause::Number),
        (b"A 1\nB 1\n\nC 1\nB 2\nA 2", 5, SizesCause::Twice),
        (b"A 1\n\tA 1", 2, SizesCause::Twice),
    ];
    for (text, line, cause) in &faults {
        let fault = SizesFault::At {
            line: *line,
            cause: *cause,
        };
        assert_eq!(rt; read_sizes(rt.alloc(), text).err(), Some(fault));
    }
}

#[test]
fn an_object_has_the_radius_of_its_designator(rt: HostRuntime) {
    let lines = read_sizes(rt.alloc(), b"AB 1\nA 2\n2025-001A 3\nCOMMENT 4\nb 0\nB 5\n").expect(
        &rt, "no fault",
    );
    let radii: [(&[u8], u64); 9] = [
        (b"A", 2_000_000_000),
        (b"AB", 1_000_000_000),
        (b"ABC", 0),
        (b"2025-001A", 3_000_000_000),
        (b"2025-001a", 0),
        (b"COMMENT", 0),
        (b"b", 0),
        (b"A", 2_000_000_000),
        (b"", 0),
    ];
    let mut ids = Vec::new(rt.alloc());
    let mut expected = Vec::new(rt.alloc());
    for (id, radius) in &radii {
        assert_eq!(rt; radius_of(&lines, id), *radius);
        ids.push(*id).expect(&rt, "no fault");
        expected.push(*radius).expect(&rt, "no fault");
    }
    let found = radii_of(rt.alloc(), &lines, &ids).expect(&rt, "no fault");
    assert_eq!(rt; found.as_slice(), expected.as_slice());
}
