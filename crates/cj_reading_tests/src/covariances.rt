ghost use Rattle.std.specs.Prelude.{◌<◌};

use crate::texts::{
    Changed, Fault, Valued, base_with, counts_of, fault_in, has_values, matrix_tick, read,
    two_with, wrong_with,
};
use cj_epoch::EpochFault;
use cj_kvn::KvnCause;
use cj_oem::{OemCause, OemFault};
use cj_samples::Change;
use std::alloc::{AllocError, Global};
use std::panic::Expect;

const EPOCH: &[u8] = b"EPOCH = 2025-01-01T00:00:00\n";

const RTN: &[u8] = b"COV_REF_FRAME = RTN\n";

const FIVE_ROWS: &[u8] = b"0.25\n0 1\n0 0 1\n0 0 0 1\n0 0 0 0 1\n";

const SIX_ROWS: &[u8] = b"0.25\n0 1\n0 0 1\n0 0 0 1\n0 0 0 0 1\n0 0 0 0 0 -3e-4\n";

const ODD_NUMBERS: &[u8] = b"1\n3 5\n7 9 11\n13 15 17 19\n21 23 25 27 29\n31 33 35 37 39 41\n";

const STOP: &[u8] = b"COVARIANCE_STOP";

/// The last node and then, from line 17 on, covariances of these parts.
fn with_covariances(alloc: Global, parts: &[&[u8]]) -> Result<Vec<u8>, AllocError> {
    let mut lines = Vec::from_slice(
        alloc,
        b"2025-01-01T00:01:00 7000 225 0 0 7.5 0\nCOVARIANCE_START\n",
    )?;
    for part in parts {
        lines.extend_from_slice(part)?;
    }
    base_with(alloc, &[(16, &lines)])
}

/// The parts of covariances, and the fault that the file then has.
type Parts<'a> = (&'a [&'a [u8]], Option<Fault>);

/// The first case in which the file does not have its fault.
fn first_wrong(alloc: Global, cases: &[Parts]) -> Result<Option<usize>, OemFault> {
    for (i, (parts, fault)) in cases.iter().enumerate() {
        let text = with_covariances(alloc, parts)?;
        if fault_in(alloc, &text)? != *fault {
            return Ok(Some(i));
        }
    }
    Ok(None)
}

const KEPT: [(&[&[u8]], usize); 9] = [
    (&[STOP], 0),
    (&[EPOCH, RTN, SIX_ROWS, STOP], 1),
    (&[EPOCH, b"COV_REF_FRAME = rtn\n", SIX_ROWS, STOP], 1),
    (&[EPOCH, b"COV_REF_FRAME = Rtn\n", SIX_ROWS, STOP], 1),
    (&[EPOCH, b"COV_REF_FRAME = TNW\n", SIX_ROWS, STOP], 0),
    (&[EPOCH, b"COV_REF_FRAME = EME2000\n", SIX_ROWS, STOP], 0),
    (&[EPOCH, b"COV_REF_FRAME =\n", SIX_ROWS, STOP], 0),
    (&[EPOCH, SIX_ROWS, STOP], 0),
    (
        &[
            EPOCH, RTN, SIX_ROWS, EPOCH, SIX_ROWS, EPOCH, RTN, SIX_ROWS, STOP,
        ],
        2,
    ),
];

/// The first case in which the file does not keep so many matrices.
fn first_miscounted(alloc: Global, cases: &[(&[&[u8]], usize)]) -> Result<Option<usize>, OemFault> {
    for (i, (parts, count)) in cases.iter().enumerate() {
        let text = with_covariances(alloc, parts)?;
        let track = read(alloc, &text, false)?;
        if counts_of(&track, 0) != Some((2, *count)) {
            return Ok(Some(i));
        }
    }
    Ok(None)
}

#[test]
fn a_matrix_is_kept_in_the_frame_rtn_alone(rt: HostRuntime) {
    assert_eq!(rt;
        first_miscounted(rt.alloc(), KEPT.as_slice()).expect(&rt, "no fault"),
        None
    );
}

const SIX: [Valued; 7] = [
    (0, false, 25, -2),
    (1, false, 0, 0),
    (2, false, 1, 0),
    (5, false, 1, 0),
    (9, false, 1, 0),
    (14, false, 1, 0),
    (20, true, 3, -4),
];

#[test]
fn the_values_of_a_matrix_are_read(rt: HostRuntime) {
    let text = with_covariances(rt.alloc(), &[EPOCH, RTN, SIX_ROWS, STOP]).expect(&rt, "no fault");
    let track = read(rt.alloc(), &text, false).expect(&rt, "no fault");
    assert_eq!(rt; matrix_tick(&track, 0, 0), Some(1_735_689_600_000_000));
    assert!(rt; has_values(&track, 0, SIX.as_slice()));
}

/// The value at an index of the matrix of odd numbers.
fn odd_at(index: usize) -> Valued
    requires { index < 21 }
{
    (index, false, 2 * index as u64 + 1, 0)
}

#[test]
fn the_values_of_a_matrix_stand_row_by_row(rt: HostRuntime) {
    let text = with_covariances(rt.alloc(), &[EPOCH, RTN, ODD_NUMBERS, STOP]).expect(
        &rt, "no fault",
    );
    let track = read(rt.alloc(), &text, false).expect(&rt, "no fault");
    for index in 0..21 {
        assert!(rt; has_values(&track, 0, &[odd_at(index)]));
    }
}

const FAULTS: [Parts<'static>; 27] = [
    (
        &[b"EPOCH = 2016-12-31T23:59:60\n", STOP],
        Some((18, OemCause::Epoch(EpochFault::SecondSixty))),
    ),
    (
        &[b"Epoch = 2025-01-01T00:00:00\n", STOP],
        Some((18, OemCause::Kvn(KvnCause::NoLineForm))),
    ),
    (&[EPOCH, b"x 1\n", STOP], Some((19, OemCause::MatrixForm))),
    (&[EPOCH, b"1\n1\n", STOP], Some((20, OemCause::MatrixForm))),
    (&[EPOCH, b"1\n1 x\n", STOP], Some((20, OemCause::Number))),
    (
        &[EPOCH, FIVE_ROWS, b"EPOCH = x\n", STOP],
        Some((24, OemCause::MatrixForm)),
    ),
    (&[EPOCH, FIVE_ROWS, STOP], Some((24, OemCause::MatrixForm))),
    (
        &[b"EPOCH = now\n", STOP],
        Some((18, OemCause::Epoch(EpochFault::Form))),
    ),
    (
        &[RTN, EPOCH, SIX_ROWS, STOP],
        Some((18, OemCause::MatrixForm)),
    ),
    (&[SIX_ROWS, STOP], Some((18, OemCause::MatrixForm))),
    (
        &[EPOCH, RTN, RTN, SIX_ROWS, STOP],
        Some((20, OemCause::MatrixForm)),
    ),
    (
        &[EPOCH, b"1\n", RTN, STOP],
        Some((20, OemCause::MatrixForm)),
    ),
    (
        &[EPOCH, b"1\n1 1 1\n", STOP],
        Some((20, OemCause::MatrixForm)),
    ),
    (&[EPOCH, b"1 1\n", STOP], Some((19, OemCause::MatrixForm))),
    (
        &[EPOCH, SIX_ROWS, b"1 1 1 1 1 1 1\n", STOP],
        Some((25, OemCause::MatrixForm)),
    ),
    (&[EPOCH, b"1\n", STOP], Some((20, OemCause::MatrixForm))),
    (&[EPOCH, STOP], Some((19, OemCause::MatrixForm))),
    (&[EPOCH, EPOCH, STOP], Some((19, OemCause::MatrixForm))),
    (
        &[EPOCH, b"1\n", b"EPOCH = now\n", STOP],
        Some((20, OemCause::MatrixForm)),
    ),
    (&[EPOCH, b"x\n", STOP], Some((19, OemCause::Number))),
    (
        &[EPOCH, b"1\n1 1e100\n", STOP],
        Some((20, OemCause::Number)),
    ),
    (&[EPOCH, b"x x\n", STOP], Some((19, OemCause::MatrixForm))),
    (
        &[EPOCH, b"OBJECT_NAME = SAT A\n", STOP],
        Some((19, OemCause::Unknown)),
    ),
    (&[EPOCH, b"META_START\n", STOP], Some((19, OemCause::Order))),
    (&[b"COVARIANCE_START\n", STOP], Some((18, OemCause::Order))),
    (&[EPOCH, RTN, SIX_ROWS], Some((27, OemCause::Missing))),
    (
        &[
            b"EPOCH = 1999-01-01T00:00:00\n",
            RTN,
            SIX_ROWS,
            b"\nCOMMENT any\n",
            STOP,
        ],
        None,
    ),
];

#[test]
fn a_matrix_has_its_first_fault(rt: HostRuntime) {
    assert_eq!(rt;
        first_wrong(rt.alloc(), FAULTS.as_slice()).expect(&rt, "no fault"),
        None
    );
}

const BEHIND: [Parts<'static>; 7] = [
    (&[b"COVARIANCE_STOP\n\nCOMMENT any\n"], None),
    (
        &[b"COVARIANCE_STOP\nCOVARIANCE_START\nCOVARIANCE_STOP"],
        Some((19, OemCause::Order)),
    ),
    (
        &[b"COVARIANCE_STOP\nMETA_STOP"],
        Some((19, OemCause::Order)),
    ),
    (
        &[b"COVARIANCE_STOP\nEPOCH = 2025-01-01T00:00:00"],
        Some((19, OemCause::Order)),
    ),
    (
        &[b"COVARIANCE_STOP\n2025-01-01T00:02:00 7000 225 0 0 7.5 0"],
        Some((19, OemCause::Order)),
    ),
    (
        &[b"COVARIANCE_STOP\nMETA_START"],
        Some((20, OemCause::Missing)),
    ),
    (&[b""], Some((19, OemCause::Missing))),
];

#[test]
fn only_a_further_segment_follows_covariances(rt: HostRuntime) {
    assert_eq!(rt;
        first_wrong(rt.alloc(), BEHIND.as_slice()).expect(&rt, "no fault"),
        None
    );
}

/// The last node of the first segment, and a covariance.
const ONE_MATRIX: Change = (
    16,
    b"2025-01-01T00:01:00 7000 225 0 0 7.5 0
COVARIANCE_START
EPOCH = 2025-01-01T00:00:00
COV_REF_FRAME = RTN
0.25
0 1
0 0 1
0 0 0 1
0 0 0 0 1
0 0 0 0 0 1
COVARIANCE_STOP",
);

#[test]
fn covariances_belong_to_their_segment(rt: HostRuntime) {
    let text = two_with(rt.alloc(), &[ONE_MATRIX]).expect(&rt, "no fault");
    let track = read(rt.alloc(), &text, false).expect(&rt, "no fault");
    assert_eq!(rt; counts_of(&track, 0), Some((2, 1)));
    assert_eq!(rt; counts_of(&track, 1), Some((2, 0)));
}

const CLOSING: [Changed<'static>; 2] = [
    (
        &[(16, b"COVARIANCE_START")],
        Some((16, OemCause::TooFewNodes)),
    ),
    (
        &[
            (11, b"STOP_TIME = 2025-01-01T00:01:01"),
            (
                16,
                b"2025-01-01T00:01:00 7000 225 0 0 7.5 0\nCOVARIANCE_START",
            ),
        ],
        Some((17, OemCause::UseableSpan)),
    ),
];

#[test]
fn covariances_close_the_nodes(rt: HostRuntime) {
    assert_eq!(rt;
        wrong_with(rt.alloc(), CLOSING.as_slice()).expect(&rt, "no fault"),
        None
    );
}
