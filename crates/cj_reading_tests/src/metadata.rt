use crate::texts::{Case, Changed, base_with, fault_of, read, wrong_in_base, wrong_with};
use cj_epoch::EpochFault;
use cj_kvn::KvnCause;
use cj_oem::{OemCause, OemFault};
use cj_samples::Change;
use std::alloc::Global;
use std::panic::Expect;

const HEADERS: [Case<'static>; 22] = [
    (1, b"CCSDS_OEM_VERS = 1.0", None),
    (1, b"CCSDS_OEM_VERS = 3.0", None),
    (1, b"CCSDS_OEM_VERS = 4.0", Some((1, OemCause::Version))),
    (1, b"CCSDS_OEM_VERS = 2", Some((1, OemCause::Version))),
    (1, b"CCSDS_OEM_VERS =", Some((1, OemCause::Version))),
    (1, b"ORIGINATOR = TEST", Some((1, OemCause::Order))),
    (1, b"META_START", Some((1, OemCause::Order))),
    (1, b"1 2 3", Some((1, OemCause::Order))),
    (1, b"", Some((2, OemCause::Order))),
    (2, b"", Some((4, OemCause::Missing))),
    (3, b"", Some((4, OemCause::Missing))),
    (
        2,
        b"CREATION_DATE =\nCLASSIFICATION = A\nMESSAGE_ID = B",
        None,
    ),
    (
        2,
        b"CREATION_DATE = A\nCREATION_DATE = A",
        Some((3, OemCause::Twice)),
    ),
    (
        3,
        b"ORIGINATOR = A\nORIGINATOR = B",
        Some((4, OemCause::Twice)),
    ),
    (
        3,
        b"CLASSIFICATION = A\nCLASSIFICATION = A",
        Some((4, OemCause::Twice)),
    ),
    (
        3,
        b"MESSAGE_ID = A\nMESSAGE_ID = A",
        Some((4, OemCause::Twice)),
    ),
    (3, b"CCSDS_OEM_VERS = 2.0", Some((3, OemCause::Twice))),
    (3, b"OBJECT_NAME = SAT A", Some((3, OemCause::Unknown))),
    (
        3,
        b"ORIGINATOR = TEST\nMETA_STOP",
        Some((4, OemCause::Order)),
    ),
    (
        3,
        b"ORIGINATOR = TEST\nCOVARIANCE_START",
        Some((4, OemCause::Order)),
    ),
    (3, b"ORIGINATOR = TEST\n1 2 3", Some((4, OemCause::Order))),
    (3, b"COMMENT any\n\nORIGINATOR = TEST\n", None),
];

#[test]
fn the_header_takes_its_keys_once(rt: HostRuntime) {
    assert_eq!(rt;
        wrong_in_base(rt.alloc(), HEADERS.as_slice()).expect(&rt, "no fault"),
        None
    );
}

const VALUES: [Case<'static>; 24] = [
    (5, b"OBJECT_NAME =", Some((5, OemCause::Missing))),
    (6, b"OBJECT_ID = \t", Some((6, OemCause::Missing))),
    (6, b"OBJECT = 2025-001A", Some((6, OemCause::Unknown))),
    (
        6,
        b"object_id = 2025-001A",
        Some((6, OemCause::Kvn(KvnCause::NoLineForm))),
    ),
    (7, b"CENTER_NAME = earth", None),
    (7, b"CENTER_NAME = MARS", Some((7, OemCause::Center))),
    (8, b"REF_FRAME = gcrf", None),
    (8, b"REF_FRAME = eme2000\nREF_FRAME_EPOCH = any", None),
    (8, b"REF_FRAME = ITRF", Some((8, OemCause::Frame))),
    (9, b"TIME_SYSTEM = utc", None),
    (9, b"TIME_SYSTEM = TAI", Some((9, OemCause::TimeSystem))),
    (
        10,
        b"START_TIME = now",
        Some((10, OemCause::Epoch(EpochFault::Form))),
    ),
    (
        10,
        b"START_TIME =",
        Some((10, OemCause::Epoch(EpochFault::Form))),
    ),
    (
        10,
        b"START_TIME = 2025-02-30T00:00:00",
        Some((10, OemCause::Epoch(EpochFault::Range))),
    ),
    (
        11,
        b"STOP_TIME = 2025-01-01T00:00:60",
        Some((11, OemCause::Epoch(EpochFault::SecondSixty))),
    ),
    (11, b"STOP_TIME = 2025-001T00:01:00.0Z", None),
    (
        12,
        b"USEABLE_START_TIME = 2025-01-01T00:00:00.0000001",
        Some((12, OemCause::Epoch(EpochFault::TooFine))),
    ),
    (
        12,
        b"USEABLE_STOP_TIME = 2025-01-01",
        Some((12, OemCause::Epoch(EpochFault::Form))),
    ),
    (12, b"INTERPOLATION = hermite", None),
    (9, b"META_START", Some((9, OemCause::Order))),
    (9, b"COVARIANCE_START", Some((9, OemCause::Order))),
    (9, b"COVARIANCE_STOP", Some((9, OemCause::Order))),
    (9, b"1 2 3", Some((9, OemCause::Order))),
    (9, b"\nCOMMENT any\nTIME_SYSTEM = UTC", None),
];

#[test]
fn each_value_of_metadata_is_judged_at_its_line(rt: HostRuntime) {
    assert_eq!(rt;
        wrong_in_base(rt.alloc(), VALUES.as_slice()).expect(&rt, "no fault"),
        None
    );
}

const TWICE: [Case<'static>; 14] = [
    (
        5,
        b"OBJECT_NAME = SAT A\nOBJECT_NAME = SAT A",
        Some((6, OemCause::Twice)),
    ),
    (
        6,
        b"OBJECT_ID = 2025-001A\nOBJECT_ID = 2025-001A",
        Some((7, OemCause::Twice)),
    ),
    (
        7,
        b"CENTER_NAME = EARTH\nCENTER_NAME = EARTH",
        Some((8, OemCause::Twice)),
    ),
    (
        8,
        b"REF_FRAME = EME2000\nREF_FRAME = EME2000",
        Some((9, OemCause::Twice)),
    ),
    (
        8,
        b"REF_FRAME_EPOCH = A\nREF_FRAME_EPOCH = A",
        Some((9, OemCause::Twice)),
    ),
    (
        9,
        b"TIME_SYSTEM = UTC\nTIME_SYSTEM = UTC",
        Some((10, OemCause::Twice)),
    ),
    (
        10,
        b"START_TIME = 2025-01-01T00:00:00\nSTART_TIME = 2025-01-01T00:00:00",
        Some((11, OemCause::Twice)),
    ),
    (
        11,
        b"STOP_TIME = 2025-01-01T00:01:00\nSTOP_TIME = 2025-01-01T00:01:00",
        Some((12, OemCause::Twice)),
    ),
    (
        11,
        b"USEABLE_START_TIME = 2025-01-01T00:00:30\nUSEABLE_START_TIME = 2025-01-01T00:00:30",
        Some((12, OemCause::Twice)),
    ),
    (
        11,
        b"USEABLE_STOP_TIME = 2025-01-01T00:00:30\nUSEABLE_STOP_TIME = 2025-01-01T00:00:30",
        Some((12, OemCause::Twice)),
    ),
    (
        12,
        b"INTERPOLATION = HERMITE\nINTERPOLATION = HERMITE",
        Some((13, OemCause::Twice)),
    ),
    (
        13,
        b"INTERPOLATION_DEGREE = 3\nINTERPOLATION_DEGREE = 3",
        Some((14, OemCause::Twice)),
    ),
    // Whatever the second value is.
    (
        7,
        b"CENTER_NAME = EARTH\nCENTER_NAME = MARS",
        Some((8, OemCause::Twice)),
    ),
    (
        10,
        b"START_TIME = 2025-01-01T00:00:00\nSTART_TIME = now",
        Some((11, OemCause::Twice)),
    ),
];

#[test]
fn each_key_of_metadata_is_taken_once(rt: HostRuntime) {
    assert_eq!(rt;
        wrong_in_base(rt.alloc(), TWICE.as_slice()).expect(&rt, "no fault"),
        None
    );
}

const MISSING: [Changed<'static>; 8] = [
    (&[(5, b"")], Some((14, OemCause::Missing))),
    (&[(6, b"")], Some((14, OemCause::Missing))),
    (&[(7, b"")], Some((14, OemCause::Missing))),
    (&[(8, b"")], Some((14, OemCause::Missing))),
    (&[(9, b"")], Some((14, OemCause::Missing))),
    (&[(10, b"")], Some((14, OemCause::Missing))),
    (&[(11, b"")], Some((14, OemCause::Missing))),
    // It comes before the interpolation.
    (&[(11, b""), (12, b"")], Some((14, OemCause::Missing))),
];

#[test]
fn each_needed_key_is_missed_where_the_metadata_stop(rt: HostRuntime) {
    assert_eq!(rt;
        wrong_with(rt.alloc(), MISSING.as_slice()).expect(&rt, "no fault"),
        None
    );
    assert_eq!(rt;
        wrong_as_hermite3(rt.alloc(), MISSING.as_slice()).expect(&rt, "no fault"),
        None
    );
}

/// The first case in which the file does not have its fault where it is taken as if it declared the cubic.
fn wrong_as_hermite3(alloc: Global, cases: &[Changed]) -> Result<Option<usize>, OemFault> {
    for (i, (changes, fault)) in cases.iter().enumerate() {
        let text = base_with(alloc, changes)?;
        if fault_of(read(alloc, &text, true))? != *fault {
            return Ok(Some(i));
        }
    }
    Ok(None)
}

const LAGRANGE: Change = (12, b"INTERPOLATION = LAGRANGE");

const SEVENTH: Change = (13, b"INTERPOLATION_DEGREE = 7");

const OTHERS: [&[Change]; 6] = [
    &[LAGRANGE, SEVENTH],
    &[SEVENTH],
    &[(13, b"INTERPOLATION_DEGREE = 03")],
    &[LAGRANGE],
    &[(12, b"")],
    &[(13, b"")],
];

#[test]
fn another_interpolation_is_taken_only_where_it_is_asked_for(rt: HostRuntime) {
    let alloc = rt.alloc();
    for changes in &OTHERS {
        let refused = [(*changes, Some((14, OemCause::Interpolation)))];
        assert_eq!(rt;
            wrong_with(alloc, refused.as_slice()).expect(&rt, "no fault"),
            None
        );
        assert_eq!(rt;
            wrong_as_hermite3(alloc, &[(*changes, None)]).expect(&rt, "no fault"),
            None
        );
    }
}
