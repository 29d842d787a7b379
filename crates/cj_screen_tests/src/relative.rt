//! The relative state that messages tell.
use crate::messages::{NOW, TWO_OF_THREE};
use crate::runs::{end_alone, output_of, run_at};
use crate::scenes::{COVARIANCE, COVERED, Content, OF_ONE_ELEMENT, Scene, files_of};
use cj_io::CalmShelf;
use std::alloc::{AllocError, Global};
use std::panic::Expect;
use std::sync::Wait;
use std::thread::Threads;

/// The message of the crossing up to its miss distance.
const FRONT: &[u8] = b"CCSDS_CDM_VERS = 1.0
CREATION_DATE = 2025-01-02T00:00:00.000000
ORIGINATOR = CONJ
MESSAGE_ID = CONJ_000001
TCA = 2025-01-01T00:00:30.000000
MISS_DISTANCE = 1000.000000000 [m]
";

/// The same with the relative state.
const FRONT_AND_STATE: &[u8] = b"CCSDS_CDM_VERS = 1.0
CREATION_DATE = 2025-01-02T00:00:00.000000
ORIGINATOR = CONJ
MESSAGE_ID = CONJ_000001
TCA = 2025-01-01T00:00:30.000000
MISS_DISTANCE = 1000.000000000 [m]
RELATIVE_POSITION_R = 1000.000000000 [m]
RELATIVE_POSITION_T = 0.000000000 [m]
RELATIVE_POSITION_N = 0.000000000 [m]
RELATIVE_VELOCITY_R = 0.000000000 [m/s]
RELATIVE_VELOCITY_T = -7500.000000000 [m/s]
RELATIVE_VELOCITY_N = 7500.000000000 [m/s]
";

/// Two objects at rest, at the threshold, that have a covariance each. The first has no normal.
const AT_REST: Scene = &[
    (
        "a.oem",
        Content::Covered("7000 0 0 0 0 0", "7000 0 0 0 0 0", &[], COVARIANCE),
    ),
    (
        "b.oem",
        Content::Covered("7005 0 0 0 0 0", "7005 0 0 0 0 0", &[], OF_ONE_ELEMENT),
    ),
];

/// Two objects in no plane of the coordinates, some nanometres apart at the first tick.
const NANOMETRES_APART: Scene = &[
    (
        "a.oem",
        Content::Covered(
            "3000 4000 0 -4 3 5",
            "2760 4180 300 -4 3 5",
            &[],
            COVARIANCE,
        ),
    ),
    (
        "b.oem",
        Content::Covered(
            "3000.000000000007 3999.999999999991 0.000000000011 -3.999999999987 2.999999999983 5.000000000019",
            "2760 4180 300 -4 3 5",
            &[],
            OF_ONE_ELEMENT,
        ),
    ),
];

/// What follows from exact whole numbers there, rounded down.
const NANOMETRES: [&str; 6] = [
    "RELATIVE_POSITION_R = -0.000000003 [m]",
    "RELATIVE_POSITION_T = 0.000000000 [m]",
    "RELATIVE_POSITION_N = 0.000000015 [m]",
    "RELATIVE_VELOCITY_R = -0.000000006 [m/s]",
    "RELATIVE_VELOCITY_T = -0.000000002 [m/s]",
    "RELATIVE_VELOCITY_N = 0.000000028 [m/s]",
];

/// The message of an encounter of the folder of a scene.
fn message_of<R: Threads + Wait + Sync>(
    rt: &R,
    alloc: Global,
    line: &str,
    scene: Scene,
    name: &[u8],
) -> Result<Vec<u8>, AllocError> {
    let (_, shelf) = run_at(rt, alloc, line, files_of(alloc, scene)?, NOW)?;
    Vec::from_slice(alloc, output_of(shelf.written(), name))
}

/// How many lines a text has, each with its end.
fn line_count(text: &[u8]) -> usize {
    text.iter().filter(|byte| **byte == b'\n').count()
}

/// Whether these are the lines of a message that tell of the relative state, in order.
fn tells(message: &[u8], due: &[&str]) -> bool {
    let mut left = due.iter();
    for line in message.split(|byte| *byte == b'\n') {
        if line.starts_with(b"RELATIVE_") {
            match left.next() {
                Some(due) if line == due.as_bytes() => {}
                _ => return false,
            }
        }
    }
    left.next().is_none()
}

#[test]
fn a_message_tells_the_relative_state_behind_its_miss_distance(rt: HostRuntime) {
    let alloc = rt.alloc();
    let name = b"000001.cdm";
    let plain = message_of(&rt, alloc, "screen .", COVERED, name).expect(&rt, "no fault");
    let told = message_of(&rt, alloc, "screen . --rtn", COVERED, name).expect(&rt, "no fault");
    assert_eq!(rt; line_count(&plain), 82);
    assert_eq!(rt; line_count(&told), 88);
    let behind = told.strip_prefix(FRONT_AND_STATE);
    assert!(rt; behind.is_some());
    assert!(rt; behind == plain.strip_prefix(FRONT));
}

#[test]
fn nanometres_are_told(rt: HostRuntime) {
    let line = "screen . --rtn --to 2025-01-01T00:00:00";
    let message = message_of(&rt, rt.alloc(), line, NANOMETRES_APART, b"000001.cdm").expect(
        &rt, "no fault",
    );
    assert_eq!(rt; line_count(&message), 88);
    assert!(rt; tells(&message, &NANOMETRES));
}

#[test]
fn objects_at_rest_have_no_relative_state(rt: HostRuntime) {
    let alloc = rt.alloc();
    for (scene, name) in [
        (AT_REST, b"000001.cdm".as_slice()),
        (TWO_OF_THREE, b"000002.cdm"),
    ] {
        let plain = message_of(&rt, alloc, "screen .", scene, name).expect(&rt, "no fault");
        let told = message_of(&rt, alloc, "screen . --rtn", scene, name).expect(&rt, "no fault");
        assert_eq!(rt; line_count(&told), 82);
        assert!(rt; told == plain);
    }
}

/// Whether runs with and without the relative state put the same but for one message.
fn differ_in_the_message_alone<R: Threads + Wait + Sync>(
    rt: &R,
    alloc: Global,
    scene: Scene,
) -> Result<bool, AllocError> {
    let (_, plain) = run_at(rt, alloc, "screen .", files_of(alloc, scene)?, NOW)?;
    let (_, told) = run_at(rt, alloc, "screen . --rtn", files_of(alloc, scene)?, NOW)?;
    Ok(
        plain.written().len() == told.written().len()
            && plain.written().iter().zip(told.written()).all(|(output, other)| {
                output.name == other.name
                    && (output.bytes == other.bytes
                        || output.name.as_slice() == b"000001.cdm".as_slice())
            }),
    )
}

#[test]
fn report_certificate_and_summary_stay(rt: HostRuntime) {
    let same = differ_in_the_message_alone(&rt, rt.alloc(), COVERED).expect(&rt, "no fault");
    assert!(rt; same);
}

#[test]
fn a_selfrun_tells_no_relative_state(rt: HostRuntime) {
    let mut shelf = CalmShelf::new(rt.alloc());
    let end = end_alone(&rt, rt.alloc(), "selfrun --rtn", &mut shelf).expect(&rt, "no fault");
    assert_eq!(rt; end.number, 2);
    assert!(rt; end.line.as_slice() == b"conj: usage: Words\n".as_slice());
    assert_eq!(rt; shelf.written().len(), 0);
}
