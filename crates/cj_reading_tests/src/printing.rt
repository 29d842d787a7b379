use crate::texts::{
    Stated, Useable, base_with, begins_with, has_useable, has_values, matrix_tick, read,
};
use cj_oem::{OemFault, Track, oem_text};
use cj_samples::Change;
use std::alloc::Global;
use std::panic::Expect;

/// One segment.
const ONE: &[u8] = b"CCSDS_OEM_VERS = 2.0
CREATION_DATE = 1972-01-01T00:00:00.000000
ORIGINATOR = CONJ
META_START
OBJECT_NAME = SAT A
OBJECT_ID = 2025-001A
CENTER_NAME = EARTH
REF_FRAME = EME2000
TIME_SYSTEM = UTC
START_TIME = 2025-01-01T00:00:00.000000
STOP_TIME = 2025-01-01T00:01:00.000000
INTERPOLATION = HERMITE
INTERPOLATION_DEGREE = 3
META_STOP
2025-01-01T00:00:00.000000 7000.000000000000 -225.000000000000 0.000000000000 0.000000000000 7.500000000000 0.000000000000
2025-01-01T00:01:00.000000 7000.000000000000 225.000000000000 0.000000000000 0.000000000000 7.500000000000 0.000000000000
";

/// Two segments: the first with numbers near 0 and a useable span within its nodes, the second with a covariance.
const TWO: &[u8] = b"CCSDS_OEM_VERS = 2.0
CREATION_DATE = 1972-01-01T00:00:00.000000
ORIGINATOR = CONJ
META_START
OBJECT_NAME = SAT A
OBJECT_ID = 2025-001A
CENTER_NAME = EARTH
REF_FRAME = GCRF
TIME_SYSTEM = UTC
START_TIME = 2025-01-01T00:00:10.000000
STOP_TIME = 2025-01-01T00:00:50.000001
INTERPOLATION = HERMITE
INTERPOLATION_DEGREE = 3
META_STOP
2025-01-01T00:00:00.000000 -0.000000000001 0.000000000000 1.000000000001 -0.500000000000 0.020000000000 -7.000000000000
2025-01-01T00:01:00.000000 -500000.000000000000 499999.999999999999 10.000000000000 20.000000000000 -19.999999999999 0.000000000010
META_START
OBJECT_NAME = SAT A
OBJECT_ID = 2025-001A
CENTER_NAME = EARTH
REF_FRAME = GCRF
TIME_SYSTEM = UTC
START_TIME = 2025-01-01T00:02:00.000000
STOP_TIME = 2025-01-01T00:03:00.000000
INTERPOLATION = HERMITE
INTERPOLATION_DEGREE = 3
META_STOP
2025-01-01T00:02:00.000000 0.000000000000 0.000000000000 0.000000000000 0.000000000000 0.000000000000 0.000000000000
2025-01-01T00:03:00.000000 0.000000000000 0.000000000000 0.000000000000 0.000000000000 0.000000000000 0.000000000000
COVARIANCE_START
EPOCH = 2025-01-01T00:02:30.000000
COV_REF_FRAME = RTN
1.0E-04
-2.5E-05 1.0E-04
0.0E+00 0.0E+00 0.0E+00
0.0E+00 0.0E+00 0.0E+00 1.0E-04
0.0E+00 0.0E+00 0.0E+00 0.0E+00 0.0E+00
-2.5E-05 0.0E+00 0.0E+00 0.0E+00 0.0E+00 1.0E-04
COVARIANCE_STOP
";

/// Whether the track of a canonical text has this text.
fn is_written_again(alloc: Global, text: &[u8]) -> Result<bool, OemFault> {
    let track = read(alloc, text, false)?;
    Ok(oem_text(alloc, &track)?.as_slice() == text)
}

#[test]
fn canonical_texts_are_read_and_written_again(rt: HostRuntime) {
    assert!(rt; is_written_again(rt.alloc(), ONE).expect(&rt, "no fault"));
    assert!(rt; is_written_again(rt.alloc(), TWO).expect(&rt, "no fault"));
}

const FIRST_OF_TWO: [Stated; 2] = [
    (
        1_735_689_600_000_000,
        [
            -1,
            0,
            1_000_000_000_001,
            -500_000_000_000,
            20_000_000_000,
            -7_000_000_000_000,
        ],
    ),
    (
        1_735_689_660_000_000,
        [
            -500_000_000_000_000_000,
            499_999_999_999_999_999,
            10_000_000_000_000,
            20_000_000_000_000,
            -19_999_999_999_999,
            10,
        ],
    ),
];

const USEABLE_OF_TWO: [Useable; 2] = [
    (1_735_689_610_000_000, 1_735_689_650_000_001),
    (1_735_689_720_000_000, 1_735_689_780_000_000),
];

#[test]
fn numbers_near_0_and_at_their_limits(rt: HostRuntime) {
    let track = read(rt.alloc(), TWO, false).expect(&rt, "no fault");
    assert!(rt; begins_with(&track, 0, FIRST_OF_TWO.as_slice()));
    assert!(rt; has_useable(&track, USEABLE_OF_TWO.as_slice()));
    assert_eq!(rt; matrix_tick(&track, 1, 0), Some(1_735_689_750_000_000));
    assert!(rt; has_values(&track, 1, &[(1, true, 25, -6)]));
}

/// A change of the file with one segment, and whether its track stays the same.
const CHANGES: [(Change, bool); 7] = [
    ((3, b"ORIGINATOR = ANOTHER"), true),
    (
        (16, b"2025-001T00:01:00.000Z +7.0e3 225.0 0 0 7.5 0 1 2 3"),
        true,
    ),
    (
        (16, b"2025-01-01T00:01:00 7000.000000000001 225 0 0 7.5 0"),
        false,
    ),
    ((5, b"OBJECT_NAME = SAT B"), false),
    ((6, b"OBJECT_ID = 2025-001B"), false),
    ((8, b"REF_FRAME = GCRF"), false),
    ((11, b"STOP_TIME = 2025-01-01T00:00:59"), false),
];

/// Whether a file with one segment has this track.
fn is_read_as(alloc: Global, changes: &[Change], track: &Track) -> Result<bool, OemFault> {
    let text = base_with(alloc, changes)?;
    Ok(read(alloc, &text, false)? == *track)
}

#[test]
fn tracks_are_the_same_where_all_they_say_is(rt: HostRuntime) {
    let base = base_with(rt.alloc(), &[]).expect(&rt, "no fault");
    let track = read(rt.alloc(), &base, false).expect(&rt, "no fault");
    for (change, same) in &CHANGES {
        assert_eq!(rt;
            is_read_as(rt.alloc(), &[*change], &track).expect(&rt, "no fault"),
            *same
        );
    }
}
