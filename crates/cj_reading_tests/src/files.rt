use crate::texts::{
    Changed, Fault, Stated, Useable, base_with, begins_with, counts_of, fault_in, fault_of,
    has_useable, has_values, is_of, matrix_tick, read, wrong_with,
};
use cj_kvn::KvnCause;
use cj_oem::{Frame, OemCause, OemFault, read_oem};
use cj_samples::Change;
use std::alloc::Global;
use std::panic::Expect;

const BASE_USEABLE: [Useable; 1] = [(1_735_689_600_000_000, 1_735_689_660_000_000)];

const BASE_NODES: [Stated; 2] = [
    (
        1_735_689_600_000_000,
        [
            7_000_000_000_000_000,
            -225_000_000_000_000,
            0,
            0,
            7_500_000_000_000,
            0,
        ],
    ),
    (
        1_735_689_660_000_000,
        [
            7_000_000_000_000_000,
            225_000_000_000_000,
            0,
            0,
            7_500_000_000_000,
            0,
        ],
    ),
];

#[test]
fn the_base_file_is_read(rt: HostRuntime) {
    let text = base_with(rt.alloc(), &[]).expect(&rt, "no fault");
    let track = read(rt.alloc(), &text, false).expect(&rt, "no fault");
    assert_eq!(rt; track.file.as_slice(), b"a.oem".as_slice());
    assert!(rt; is_of(&track, b"SAT A", b"2025-001A", Frame::Eme2000));
    assert!(rt; has_useable(&track, BASE_USEABLE.as_slice()));
    assert_eq!(rt; counts_of(&track, 0), Some((2, 0)));
    assert!(rt; begins_with(&track, 0, BASE_NODES.as_slice()));
}

const OTHER_TEXTS: [Change; 3] = [
    (5, b"OBJECT_NAME = \tA =\tB  C \t"),
    (6, b"OBJECT_ID=x"),
    (8, b"REF_FRAME = Gcrf"),
];

#[test]
fn texts_and_frames_are_as_the_file_gives_them(rt: HostRuntime) {
    let text = base_with(rt.alloc(), OTHER_TEXTS.as_slice()).expect(&rt, "no fault");
    let track = read(rt.alloc(), &text, false).expect(&rt, "no fault");
    assert!(rt; is_of(&track, b"A = B  C", b"x", Frame::Gcrf));
}

const USUAL: &[u8] = b"CCSDS_OEM_VERS = 2.0\r
COMMENT  produced by flight dynamics\r
CREATION_DATE  = 2025-001T06:00:00.000Z\r
ORIGINATOR     = OPS\r
\r
META_START\r
OBJECT_NAME          = DEMO SAT\r
OBJECT_ID            = 2025-007B\r
CENTER_NAME          = Earth\r
REF_FRAME            = EME2000\r
TIME_SYSTEM          = UTC\r
START_TIME           = 2025-001T00:00:00.000Z\r
USEABLE_START_TIME   = 2025-001T00:00:30.000Z\r
STOP_TIME            = 2025-001T00:02:00.000Z\r
INTERPOLATION        = Hermite\r
INTERPOLATION_DEGREE = 3\r
META_STOP\r
\r
COMMENT  positions in km\r
2025-001T00:00:00.000Z  7.0E+03  0.0  0.0  0.0  7.5E+00  0.0  0.0 0.0 0.0\r
2025-001T00:01:00.000Z  6985.8   449.7  0.0  -0.48  7.48  0.0  0.0 0.0 0.0\r
2025-001T00:02:00.000Z  6943.2   897.5  0.0  -0.96  7.44  0.0  0.0 0.0 0.0\r
\r
COVARIANCE_START\r
EPOCH = 2025-001T00:00:00.000Z\r
COV_REF_FRAME = RTN\r
1.0e-04\r
0.0 1.0e-04\r
0.0 0.0 1.0e-04\r
0.0 0.0 0.0 1.0e-10\r
0.0 0.0 0.0 0.0 1.0e-10\r
0.0 0.0 0.0 0.0 0.0 1.0e-10\r
COVARIANCE_STOP\r
";

const USUAL_USEABLE: [Useable; 1] = [(1_735_689_630_000_000, 1_735_689_720_000_000)];

const USUAL_NODES: [Stated; 3] = [
    (
        1_735_689_600_000_000,
        [7_000_000_000_000_000, 0, 0, 0, 7_500_000_000_000, 0],
    ),
    (
        1_735_689_660_000_000,
        [
            6_985_800_000_000_000,
            449_700_000_000_000,
            0,
            -480_000_000_000,
            7_480_000_000_000,
            0,
        ],
    ),
    (
        1_735_689_720_000_000,
        [
            6_943_200_000_000_000,
            897_500_000_000_000,
            0,
            -960_000_000_000,
            7_440_000_000_000,
            0,
        ],
    ),
];

#[test]
fn a_file_of_a_usual_tool_is_read(rt: HostRuntime) {
    let track = read(rt.alloc(), USUAL, false).expect(&rt, "no fault");
    assert!(rt; is_of(&track, b"DEMO SAT", b"2025-007B", Frame::Eme2000));
    assert!(rt; has_useable(&track, USUAL_USEABLE.as_slice()));
    assert_eq!(rt; counts_of(&track, 0), Some((3, 1)));
    assert!(rt; begins_with(&track, 0, USUAL_NODES.as_slice()));
    assert_eq!(rt; matrix_tick(&track, 0, 0), Some(1_735_689_600_000_000));
    assert!(rt;
        has_values(
            &track,
            0,
            &[(0, false, 1, -4), (1, false, 0, 0), (20, false, 1, -10)]
        )
    );
}

#[test]
fn of_all_beginnings_of_a_file_only_its_whole_text_is_accepted(rt: HostRuntime) {
    let text = base_with(rt.alloc(), &[]).expect(&rt, "no fault");
    for len in 0..text.len() + 1 {
        // the last line feed may be left out
        let is_whole = len + 1 >= text.len();
        assert_eq!(rt;
            fault_in(rt.alloc(), &text[..len])
                .expect(&rt, "no fault")
                .is_none(),
            is_whole
        );
    }
}

/// How many bytes are left of the file with one segment, and its fault.
const CUTS: [(usize, Fault); 5] = [
    (0, (1, OemCause::Missing)),
    // The header's first line alone, and the header with the first line of the metadata.
    (21, (2, OemCause::Missing)),
    (86, (5, OemCause::Missing)),
    // All but the last line, and all but the last fields of it.
    (350, (16, OemCause::TooFewNodes)),
    (377, (16, OemCause::Fields)),
];

#[test]
fn a_file_that_is_cut_has_its_fault_at_the_cut(rt: HostRuntime) {
    let text = base_with(rt.alloc(), &[]).expect(&rt, "no fault");
    for (len, fault) in &CUTS {
        let front = text.get(..*len).unwrap_or(&text);
        assert_eq!(rt;
            fault_in(rt.alloc(), front).expect(&rt, "no fault"),
            Some(*fault)
        );
    }
}

const FORMS: [Changed<'static>; 5] = [
    // The form of all lines is judged before what they say.
    (
        &[(1, b"CCSDS_OEM_VERS = 9.9"), (16, b"a\x7f")],
        Some((16, OemCause::Kvn(KvnCause::NotPrintable))),
    ),
    (
        &[(1, b"CCSDS_OEM_VERS = 9.9"), (16, b"a = b")],
        Some((16, OemCause::Kvn(KvnCause::NoLineForm))),
    ),
    (
        &[(2, b"CREATION_DATE = A\r\r"), (16, b"a = b")],
        Some((2, OemCause::Kvn(KvnCause::NotPrintable))),
    ),
    // The useable span is judged by the last of all nodes.
    (
        &[(16, b"2025-01-01T00:00:30 7000 0 0 0 7.5 0")],
        Some((17, OemCause::UseableSpan)),
    ),
    (
        &[(
            16,
            b"2025-01-01T00:00:30 7000 0 0 0 7.5 0\n2025-01-01T00:01:00 7000 225 0 0 7.5 0",
        )],
        None,
    ),
];

#[test]
fn lines_are_judged_in_two_passes(rt: HostRuntime) {
    assert_eq!(rt;
        wrong_with(rt.alloc(), FORMS.as_slice()).expect(&rt, "no fault"),
        None
    );
}

/// The fault of a short file of this name.
fn fault_named(alloc: Global, name: &[u8], text: &[u8]) -> Result<Option<Fault>, OemFault> {
    if text.len() > 100_000 {
        return Err(OemFault::Memory);
    }
    fault_of(read_oem(alloc, name, text, false))
}

const BAD_NAME: Option<Fault> = Some((0, OemCause::Name));

const NAMES: [(&[u8], Option<Fault>); 5] = [
    (b"", BAD_NAME),
    (b" ", None),
    (b"a\x1f", BAD_NAME),
    (b"a\x7f", BAD_NAME),
    (b"a\tb", BAD_NAME),
];

#[test]
fn a_name_has_printable_bytes(rt: HostRuntime) {
    let text = base_with(rt.alloc(), &[]).expect(&rt, "no fault");
    for (name, fault) in &NAMES {
        assert_eq!(rt;
            fault_named(rt.alloc(), name, &text).expect(&rt, "no fault"),
            *fault
        );
    }
    // Whatever the file says.
    assert_eq!(rt;
        fault_named(rt.alloc(), b"", b"a = b").expect(&rt, "no fault"),
        BAD_NAME
    );
}

#[test]
fn a_name_has_two_hundred_bytes_at_most(rt: HostRuntime) {
    let text = base_with(rt.alloc(), &[]).expect(&rt, "no fault");
    let mut name = Vec::new(rt.alloc());
    for _ in 0..200 {
        name.push(b'~').expect(&rt, "no fault");
    }
    assert_eq!(rt;
        fault_named(rt.alloc(), &name, &text).expect(&rt, "no fault"),
        None
    );
    name.push(b'~').expect(&rt, "no fault");
    assert_eq!(rt;
        fault_named(rt.alloc(), &name, &text).expect(&rt, "no fault"),
        BAD_NAME
    );
}
