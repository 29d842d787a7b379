use crate::texts::{
    Case, Changed, Stated, base_with, begins_with, read, wrong_in_base, wrong_with,
};
use cj_epoch::EpochFault;
use cj_oem::OemCause;
use cj_samples::Change;
use std::panic::Expect;

const ROWS: [Case<'static>; 29] = [
    (
        15,
        b"2025-01-01T00:00:00 7000 -225 0 0 7.5",
        Some((15, OemCause::Fields)),
    ),
    (
        15,
        b"2025-01-01T00:00:00 7000 -225 0 0 7.5 0 0",
        Some((15, OemCause::Fields)),
    ),
    (
        15,
        b"2025-01-01T00:00:00 7000 -225 0 0 7.5 0 0 0",
        Some((15, OemCause::Fields)),
    ),
    (
        15,
        b"2025-01-01T00:00:00 7000 -225 0 0 7.5 0 0 0 0 0",
        Some((15, OemCause::Fields)),
    ),
    (15, b"2025-01-01T00:00:00 7000 -225 0 0 7.5 0 0 0 0", None),
    (
        15,
        b" 2025-01-01T00:00:00\t7000  -225 0 0 +7.5e0 0 \t",
        None,
    ),
    (15, b"now x", Some((15, OemCause::Fields))),
    (
        15,
        b"now x 0 0 0 0 0",
        Some((15, OemCause::Epoch(EpochFault::Form))),
    ),
    (
        15,
        b"2025-13-01T00:00:00 x 0 0 0 0 0",
        Some((15, OemCause::Epoch(EpochFault::Range))),
    ),
    (
        15,
        b"2025-01-01T00:00:00 500001 0 0 0 0 x",
        Some((15, OemCause::Number)),
    ),
    (
        15,
        b"2025-01-01T00:00:00 500001 0 0 0 0 0 0 0 x",
        Some((15, OemCause::Number)),
    ),
    (15, b"2025-01-01T00:00:00 500000 -500000 0 0 7.5 0", None),
    (
        15,
        b"2025-01-01T00:00:00 500000.0000000000004 0 0 0 0 0",
        None,
    ),
    (
        15,
        b"2025-01-01T00:00:00 500000.000000000001 0 0 0 0 0",
        Some((15, OemCause::CoordinateRange)),
    ),
    (
        15,
        b"2025-01-01T00:00:00 0 -500000.000000000001 0 0 0 0",
        Some((15, OemCause::CoordinateRange)),
    ),
    (
        15,
        b"2025-01-01T00:00:00 0 0 1e40 21 0 0",
        Some((15, OemCause::CoordinateRange)),
    ),
    (15, b"2025-01-01T00:00:00 0 0 0 20 -20 0", None),
    (
        15,
        b"2025-01-01T00:00:00 0 0 0 20.000000000001 0 0",
        Some((15, OemCause::RateRange)),
    ),
    (
        15,
        b"2025-01-01T00:00:00 0 0 0 0 0 -1e40",
        Some((15, OemCause::RateRange)),
    ),
    (
        15,
        b"2025-01-01T00:00:00 7000 -225 0 0 7.5 0 1e200 0 0",
        Some((15, OemCause::Number)),
    ),
    (
        15,
        b"2025-01-01T00:00:00 7000 -225 0 0 7.5 0 1e40 0 0",
        None,
    ),
    (
        15,
        b"2016-12-31T23:59:60 x 0 0 0 0 0 0",
        Some((15, OemCause::Fields)),
    ),
    (
        15,
        b"2016-12-31T23:59:60 x 0 0 0 0 0",
        Some((15, OemCause::Epoch(EpochFault::SecondSixty))),
    ),
    (
        15,
        b"2025-01-01T00:00:00 1e40 0 0 0 0 0 0 x 0",
        Some((15, OemCause::Number)),
    ),
    (
        15,
        b"2025-01-01T00:00:00 0 0 0 0 0 0 0 0 1e100",
        Some((15, OemCause::Number)),
    ),
    (
        15,
        b"2025-01-01T00:00:00 0 0 -500000.000000000001 0 0 0",
        Some((15, OemCause::CoordinateRange)),
    ),
    (
        15,
        b"2025-01-01T00:00:00 0 1e40 0 0 0 0",
        Some((15, OemCause::CoordinateRange)),
    ),
    (15, b"OBJECT_NAME = SAT A", Some((15, OemCause::Order))),
    (15, b"META_STOP", Some((15, OemCause::Order))),
];

/// A node at the greatest coordinate, which is written with digits beyond the last place.
const FAR: [Stated; 1] = [(
    1_735_689_600_000_000,
    [500_000_000_000_000_000, 0, 0, 0, 0, 0],
)];

#[test]
fn digits_beyond_a_nanometre_are_rounded_before_the_limit(rt: HostRuntime) {
    let row: Change = (15, b"2025-01-01T00:00:00 500000.0000000000004 0 0 0 0 0");
    let text = base_with(rt.alloc(), &[row]).expect(&rt, "no fault");
    let track = read(rt.alloc(), &text, false).expect(&rt, "no fault");
    assert!(rt; begins_with(&track, 0, FAR.as_slice()));
}

#[test]
fn a_row_has_its_first_fault(rt: HostRuntime) {
    assert_eq!(rt;
        wrong_in_base(rt.alloc(), ROWS.as_slice()).expect(&rt, "no fault"),
        None
    );
}

const TIMES: [Case<'static>; 5] = [
    (
        16,
        b"2024-12-31T23:59:59 0 0 0 21 0 0",
        Some((16, OemCause::RateRange)),
    ),
    (
        16,
        b"2025-01-01T00:00:00 7000 225 0 0 7.5 0",
        Some((16, OemCause::TimesFall)),
    ),
    (
        16,
        b"2024-12-31T22:00:00 7000 225 0 0 7.5 0",
        Some((16, OemCause::TimesFall)),
    ),
    (
        16,
        b"2025-01-01T00:00:00 7000 225 0 0 21 0",
        Some((16, OemCause::RateRange)),
    ),
    (
        16,
        b"2025-01-01T00:00:00.000001 7000 225 0 0 7.5 0",
        Some((17, OemCause::UseableSpan)),
    ),
];

#[test]
fn the_times_of_nodes_rise(rt: HostRuntime) {
    assert_eq!(rt;
        wrong_in_base(rt.alloc(), TIMES.as_slice()).expect(&rt, "no fault"),
        None
    );
}

const START: Change = (10, b"START_TIME = 2016-12-31T23:59:30");

const STOP: Change = (11, b"STOP_TIME = 2017-01-01T00:00:30");

const FIRST: Change = (15, b"2016-12-31T23:59:30 7000 -225 0 0 7.5 0");

const HOUR: Change = (11, b"STOP_TIME = 2025-01-01T01:00:00");

const STEPS: [Changed<'static>; 7] = [
    // Nodes stand at most an hour apart.
    (
        &[HOUR, (16, b"2025-01-01T01:00:00 7000 225 0 0 7.5 0")],
        None,
    ),
    (
        &[HOUR, (16, b"2025-01-01T01:00:00.000001 7000 225 0 0 7.5 0")],
        Some((16, OemCause::StepTooLong)),
    ),
    // No leap second lies between them.
    (
        &[
            START,
            STOP,
            FIRST,
            (16, b"2017-01-01T00:00:30 7000 225 0 0 7.5 0"),
        ],
        Some((16, OemCause::LeapSecond)),
    ),
    (
        &[
            START,
            STOP,
            FIRST,
            (16, b"2016-12-31T23:59:60 7000 225 0 0 7.5 0"),
        ],
        Some((16, OemCause::Epoch(EpochFault::SecondSixty))),
    ),
    (
        &[
            START,
            STOP,
            FIRST,
            (16, b"2017-01-01T01:00:30 7000 225 0 0 7.5 0"),
        ],
        Some((16, OemCause::StepTooLong)),
    ),
    (
        &[START, STOP, FIRST, (16, b"2017-01-01T01:00:00 0 0 0 0 0 0")],
        Some((16, OemCause::StepTooLong)),
    ),
    // A node at the first tick after a leap second begins a segment.
    (
        &[
            (10, b"START_TIME = 2017-01-01T00:00:00"),
            STOP,
            (15, b"2017-01-01T00:00:00 7000 -225 0 0 7.5 0"),
            (16, b"2017-01-01T00:00:30 7000 225 0 0 7.5 0"),
        ],
        None,
    ),
];

#[test]
fn nodes_stand_an_hour_apart_at_most_and_on_one_side_of_a_leap_second(rt: HostRuntime) {
    assert_eq!(rt;
        wrong_with(rt.alloc(), STEPS.as_slice()).expect(&rt, "no fault"),
        None
    );
}

const FORMS: Change = (
    15,
    b"2025-01-01T00:00:00 7000 -225.5  0.25\t1e-3 7.5 -.5e-11",
);

const NUMBERS: [Stated; 1] = [(
    1_735_689_600_000_000,
    [
        7_000_000_000_000_000,
        -225_500_000_000_000,
        250_000_000_000,
        1_000_000_000,
        7_500_000_000_000,
        -5,
    ],
)];

#[test]
fn numbers_of_every_form_are_read(rt: HostRuntime) {
    let text = base_with(rt.alloc(), &[FORMS]).expect(&rt, "no fault");
    let track = read(rt.alloc(), &text, false).expect(&rt, "no fault");
    assert!(rt; begins_with(&track, 0, NUMBERS.as_slice()));
}
