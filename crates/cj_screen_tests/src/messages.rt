//! The messages of runs.
use crate::runs::{are_named, output_of, run_at};
use crate::scenes::{COVARIANCE, COVERED, CROSSING, Content, OF_ONE_ELEMENT, Scene, files_of};
use cj_base::Tick;
use cj_io::{CalmShelf, FileBytes};
use std::alloc::{AllocError, Global};
use std::panic::Expect;
use std::sync::Wait;
use std::thread::Threads;

/// 2025-01-02T00:00:00.
pub const NOW: Tick = Tick {
    micros: 1_735_776_000_000_000,
};

/// The message of the crossing whose objects have a covariance each.
const MESSAGE: &[u8] = b"CCSDS_CDM_VERS = 1.0
CREATION_DATE = 2025-01-02T00:00:00.000000
ORIGINATOR = CONJ
MESSAGE_ID = CONJ_000001
TCA = 2025-01-01T00:00:30.000000
MISS_DISTANCE = 1000.000000000 [m]
START_SCREEN_PERIOD = 2025-01-01T00:00:00.000000
STOP_SCREEN_PERIOD = 2025-01-01T00:01:00.000000
OBJECT = OBJECT1
OBJECT_DESIGNATOR = 2025-001A
CATALOG_NAME = OEM
OBJECT_NAME = SAT A
INTERNATIONAL_DESIGNATOR = 2025-001A
EPHEMERIS_NAME = a.oem
COVARIANCE_METHOD = CALCULATED
MANEUVERABLE = N/A
REF_FRAME = EME2000
X = 7000.000000000000 [km]
Y = 0.000000000000 [km]
Z = 0.000000000000 [km]
X_DOT = 0.000000000000 [km/s]
Y_DOT = 7.500000000000 [km/s]
Z_DOT = 0.000000000000 [km/s]
COMMENT COVARIANCE EPOCH 2025-01-01T00:00:00.000000
CR_R = 3.3313494E+02 [m**2]
CT_R = 4.6189273E+02 [m**2]
CT_T = 6.7824216E+02 [m**2]
CN_R = 0.0E+00 [m**2]
CN_T = 0.0E+00 [m**2]
CN_N = 0.0E+00 [m**2]
CRDOT_R = 0.0E+00 [m**2/s]
CRDOT_T = 0.0E+00 [m**2/s]
CRDOT_N = 0.0E+00 [m**2/s]
CRDOT_RDOT = 0.0E+00 [m**2/s**2]
CTDOT_R = 0.0E+00 [m**2/s]
CTDOT_T = 0.0E+00 [m**2/s]
CTDOT_N = 0.0E+00 [m**2/s]
CTDOT_RDOT = 0.0E+00 [m**2/s**2]
CTDOT_TDOT = 0.0E+00 [m**2/s**2]
CNDOT_R = 0.0E+00 [m**2/s]
CNDOT_T = 0.0E+00 [m**2/s]
CNDOT_N = 0.0E+00 [m**2/s]
CNDOT_RDOT = 0.0E+00 [m**2/s**2]
CNDOT_TDOT = 0.0E+00 [m**2/s**2]
CNDOT_NDOT = 0.0E+00 [m**2/s**2]
OBJECT = OBJECT2
OBJECT_DESIGNATOR = 2025-002A
CATALOG_NAME = OEM
OBJECT_NAME = SAT B
INTERNATIONAL_DESIGNATOR = 2025-002A
EPHEMERIS_NAME = b.oem
COVARIANCE_METHOD = CALCULATED
MANEUVERABLE = N/A
REF_FRAME = EME2000
X = 7001.000000000000 [km]
Y = 0.000000000000 [km]
Z = 0.000000000000 [km]
X_DOT = 0.000000000000 [km/s]
Y_DOT = 0.000000000000 [km/s]
Z_DOT = 7.500000000000 [km/s]
COMMENT COVARIANCE EPOCH 2025-01-01T00:00:00.000000
CR_R = 1.0E+06 [m**2]
CT_R = 0.0E+00 [m**2]
CT_T = 0.0E+00 [m**2]
CN_R = 0.0E+00 [m**2]
CN_T = 0.0E+00 [m**2]
CN_N = 0.0E+00 [m**2]
CRDOT_R = 0.0E+00 [m**2/s]
CRDOT_T = 0.0E+00 [m**2/s]
CRDOT_N = 0.0E+00 [m**2/s]
CRDOT_RDOT = 0.0E+00 [m**2/s**2]
CTDOT_R = 0.0E+00 [m**2/s]
CTDOT_T = 0.0E+00 [m**2/s]
CTDOT_N = 0.0E+00 [m**2/s]
CTDOT_RDOT = 0.0E+00 [m**2/s**2]
CTDOT_TDOT = 0.0E+00 [m**2/s**2]
CNDOT_R = 0.0E+00 [m**2/s]
CNDOT_T = 0.0E+00 [m**2/s]
CNDOT_N = 0.0E+00 [m**2/s]
CNDOT_RDOT = 0.0E+00 [m**2/s**2]
CNDOT_TDOT = 0.0E+00 [m**2/s**2]
CNDOT_NDOT = 0.0E+00 [m**2/s**2]
";

/// The crossing, one of whose objects has a covariance.
const ONE_COVERED: Scene = &[
    (
        "a.oem",
        Content::Covered("7000 -225 0 0 7.5 0", "7000 225 0 0 7.5 0", &[], COVARIANCE),
    ),
    (
        "b.oem",
        Content::Minute("7001 0 -225 0 0 7.5", "7001 0 225 0 0 7.5", &[]),
    ),
];

/// The crossing, the first of whose objects has its covariance in another frame.
const OF_ANOTHER_FRAME: Scene = &[
    (
        "a.oem",
        Content::Covered(
            "7000 -225 0 0 7.5 0",
            "7000 225 0 0 7.5 0",
            &[],
            "COVARIANCE_START
EPOCH = 2025-01-01T00:00:00
COV_REF_FRAME = EME2000
3.3313494e-04
4.6189273e-04 6.7824216e-04
0 0 0
0 0 0 0
0 0 0 0 0
0 0 0 0 0 0
COVARIANCE_STOP
",
        ),
    ),
    (
        "b.oem",
        Content::Covered(
            "7001 0 -225 0 0 7.5",
            "7001 0 225 0 0 7.5",
            &[],
            OF_ONE_ELEMENT,
        ),
    ),
];

/// Three objects in a row, each near the next, of which the last two have a covariance.
pub const TWO_OF_THREE: Scene = &[
    ("a.oem", Content::Rest("7000 0 0")),
    (
        "b.oem",
        Content::Covered("7003 0 0 0 0 0", "7003 0 0 0 0 0", &[], COVARIANCE),
    ),
    (
        "c.oem",
        Content::Covered("7006 0 0 0 0 0", "7006 0 0 0 0 0", &[], OF_ONE_ELEMENT),
    ),
];

/// A folder, the names of the outputs that a run puts, the last fields of the report's encounters, and the end of the summary.
type Told = (
    Scene,
    &'static [&'static str],
    &'static [&'static str],
    &'static str,
);

const TOLD: [Told; 5] = [
    (
        COVERED,
        &["screen.report", "screen.cert", "000001.cdm", "-"],
        &["CDM"],
        "ENCOUNTERS 1\nMESSAGES 1\n",
    ),
    (
        CROSSING,
        &["screen.report", "screen.cert", "-"],
        &["NOCOV"],
        "ENCOUNTERS 1\nMESSAGES 0\n",
    ),
    (
        ONE_COVERED,
        &["screen.report", "screen.cert", "-"],
        &["NOCOV"],
        "ENCOUNTERS 1\nMESSAGES 0\n",
    ),
    (
        OF_ANOTHER_FRAME,
        &["screen.report", "screen.cert", "-"],
        &["NOCOV"],
        "ENCOUNTERS 1\nMESSAGES 0\n",
    ),
    // A message bears the number of its encounter.
    (
        TWO_OF_THREE,
        &["screen.report", "screen.cert", "000002.cdm", "-"],
        &["NOCOV", "CDM"],
        "ENCOUNTERS 2\nMESSAGES 1\n",
    ),
];

/// Runs the whole folder of a scene at this time.
fn shelf_of<R: Threads + Wait + Sync>(
    rt: &R,
    alloc: Global,
    scene: Scene,
) -> Result<CalmShelf, AllocError> {
    let (_, shelf) = run_at(rt, alloc, "screen .", files_of(alloc, scene)?, NOW)?;
    Ok(shelf)
}

/// Whether the encounters of a report have these last fields, in order.
fn are_told(report: &[u8], fields: &[&str]) -> bool {
    let mut left = fields.iter();
    for line in report.split(|byte| *byte == b'\n') {
        if line.starts_with(b"ENCOUNTER ") {
            match left.next() {
                Some(field) if line.ends_with(field.as_bytes()) => {}
                _ => return false,
            }
        }
    }
    left.next().is_none()
}

/// Whether these are the outputs of a case, with its fields and counts.
fn are_of(outputs: &[FileBytes], case: &Told) -> bool {
    let (_, names, fields, counts) = case;
    are_named(outputs, names)
        && are_told(output_of(outputs, b"screen.report"), fields)
        && output_of(outputs, b"-").ends_with(counts.as_bytes())
}

/// The place of the first case with other outputs, fields or counts.
fn first_other<R: Threads + Wait + Sync>(
    rt: &R,
    alloc: Global,
    cases: &[Told],
) -> Result<Option<usize>, AllocError> {
    for (place, case) in cases.iter().enumerate() {
        let shelf = shelf_of(rt, alloc, case.0)?;
        if !are_of(shelf.written(), case) {
            return Ok(Some(place));
        }
    }
    Ok(None)
}

#[test]
fn encounters_with_both_covariances_have_a_message(rt: HostRuntime) {
    assert_eq!(rt;
        first_other(&rt, rt.alloc(), TOLD.as_slice()).expect(&rt, "no fault"),
        None
    );
}

#[test]
fn two_tracks_cross_at_one_kilometre(rt: HostRuntime) {
    let shelf = shelf_of(&rt, rt.alloc(), COVERED).expect(&rt, "no fault");
    assert!(rt; output_of(shelf.written(), b"000001.cdm") == MESSAGE);
}

#[test]
fn a_message_names_its_originator(rt: HostRuntime) {
    let alloc = rt.alloc();
    let line = "screen . --originator Ops_7-b";
    let (_, shelf) = run_at(
        &rt,
        alloc,
        line,
        files_of(alloc, COVERED).expect(&rt, "no fault"),
        NOW,
    )
    .expect(&rt, "no fault");
    let message = output_of(shelf.written(), b"000001.cdm");
    let front = b"CCSDS_CDM_VERS = 1.0
CREATION_DATE = 2025-01-02T00:00:00.000000
ORIGINATOR = Ops_7-b
MESSAGE_ID = Ops_7-b_000001
";
    assert!(rt; message.starts_with(front));
}
