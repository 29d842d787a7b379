use crate::texts::{
    Case, Changed, Stated, begins_with, counts_of, has_useable, read, two_with, wrong_in_base,
    wrong_in_two, wrong_with,
};
use cj_oem::OemCause;
use cj_samples::Change;
use std::panic::Expect;

const SPANS: [Case<'static>; 9] = [
    (
        10,
        b"START_TIME = 2024-12-31T23:59:59.999999",
        Some((17, OemCause::UseableSpan)),
    ),
    (10, b"START_TIME = 2025-01-01T00:01:00", None),
    (
        10,
        b"START_TIME = 2025-01-01T00:01:00.000001",
        Some((17, OemCause::UseableSpan)),
    ),
    (
        11,
        b"STOP_TIME = 2025-01-01T00:01:00.000001",
        Some((17, OemCause::UseableSpan)),
    ),
    (11, b"STOP_TIME = 2025-01-01T00:00:00", None),
    (
        11,
        b"STOP_TIME = 2024-12-31T23:59:59.999999",
        Some((17, OemCause::UseableSpan)),
    ),
    (
        11,
        b"STOP_TIME = 2025-01-01T09:00:00\nUSEABLE_STOP_TIME = 2025-01-01T00:01:00",
        None,
    ),
    (
        10,
        b"START_TIME = 2025-01-01T09:00:00\nUSEABLE_START_TIME = 2025-01-01T00:00:00",
        None,
    ),
    (
        11,
        b"STOP_TIME = 2025-01-01T00:01:00\nUSEABLE_STOP_TIME = 2025-01-01T00:01:00.000001",
        Some((18, OemCause::UseableSpan)),
    ),
];

#[test]
fn the_useable_span_lies_from_the_first_node_to_the_last(rt: HostRuntime) {
    assert_eq!(rt;
        wrong_in_base(rt.alloc(), SPANS.as_slice()).expect(&rt, "no fault"),
        None
    );
}

const FEW: [Changed<'static>; 4] = [
    (&[(16, b"")], Some((17, OemCause::TooFewNodes))),
    (&[(16, b"META_START")], Some((16, OemCause::TooFewNodes))),
    (
        &[(16, b"COVARIANCE_START")],
        Some((16, OemCause::TooFewNodes)),
    ),
    (
        &[(10, b"START_TIME = 2025-01-01T09:00:00"), (16, b"")],
        Some((17, OemCause::TooFewNodes)),
    ),
];

#[test]
fn a_segment_has_two_nodes(rt: HostRuntime) {
    assert_eq!(rt;
        wrong_with(rt.alloc(), FEW.as_slice()).expect(&rt, "no fault"),
        None
    );
}

/// A node of the second segment before the end of the first.
const EARLY: Change = (28, b"2025-01-01T00:00:30 7100 0 0 0 0 0");

const TWO: [Changed<'static>; 6] = [
    // Neighbouring spans share one tick at most.
    (&[(23, b"START_TIME = 2025-01-01T00:01:00"), EARLY], None),
    (&[(23, b"START_TIME = 2025-01-01T00:01:30"), EARLY], None),
    (
        &[(23, b"START_TIME = 2025-01-01T00:00:59.999999"), EARLY],
        Some((30, OemCause::SegmentsOverlap)),
    ),
    // A useable span is judged before an overlap.
    (
        &[(23, b"START_TIME = 2025-01-01T00:00:30")],
        Some((30, OemCause::UseableSpan)),
    ),
    // The first segment is closed where the next begins.
    (&[(16, b"")], Some((17, OemCause::TooFewNodes))),
    (
        &[(11, b"STOP_TIME = 2025-01-01T00:01:01")],
        Some((17, OemCause::UseableSpan)),
    ),
];

#[test]
fn each_of_two_segments_is_closed_before_the_next(rt: HostRuntime) {
    assert_eq!(rt;
        wrong_in_two(rt.alloc(), TWO.as_slice()).expect(&rt, "no fault"),
        None
    );
}

const OBJECTS: [Changed<'static>; 9] = [
    (
        &[(18, b"OBJECT_NAME = SAT B")],
        Some((18, OemCause::ObjectChanged)),
    ),
    (
        &[(18, b"OBJECT_NAME = sat a")],
        Some((18, OemCause::ObjectChanged)),
    ),
    (&[(18, b"OBJECT_NAME =")], Some((18, OemCause::Missing))),
    (&[(18, b"OBJECT_NAME = SAT\tA")], None),
    (
        &[(19, b"OBJECT_ID = 2025-001B")],
        Some((19, OemCause::ObjectChanged)),
    ),
    (
        &[(19, b"OBJECT_ID = 2025-001")],
        Some((19, OemCause::ObjectChanged)),
    ),
    (&[(21, b"REF_FRAME = GCRF")], Some((21, OemCause::Frame))),
    (&[(21, b"REF_FRAME = eme2000")], None),
    (&[(18, b"")], Some((27, OemCause::Missing))),
];

#[test]
fn a_file_has_one_object(rt: HostRuntime) {
    assert_eq!(rt;
        wrong_in_two(rt.alloc(), OBJECTS.as_slice()).expect(&rt, "no fault"),
        None
    );
}

const SECOND: [Stated; 2] = [
    (
        1_735_689_660_000_000,
        [7_100_000_000_000_000, 0, 0, 0, 0, 0],
    ),
    (
        1_735_689_720_000_000,
        [7_100_000_000_000_000, 0, 0, 0, 0, 0],
    ),
];

#[test]
fn two_segments_are_two(rt: HostRuntime) {
    let text = two_with(rt.alloc(), &[]).expect(&rt, "no fault");
    let track = read(rt.alloc(), &text, false).expect(&rt, "no fault");
    let middle = 1_735_689_660_000_000;
    assert!(rt;
        has_useable(
            &track,
            &[
                (1_735_689_600_000_000, middle),
                (middle, 1_735_689_720_000_000)
            ]
        )
    );
    assert_eq!(rt; counts_of(&track, 0), Some((2, 0)));
    assert!(rt; begins_with(&track, 1, SECOND.as_slice()));
}
