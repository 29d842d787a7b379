use crate::texts::{kept, read, track_of};
use cj_base::Tick;
use cj_hermite::piece_at;
use cj_oem::{OemFault, Track, oem_text};
use cj_thin::thin;
use std::alloc::{AllocError, Global};
use std::panic::Expect;

/// A metre, in nm.
const METRE: u64 = 1_000_000_000;

const SECOND: u64 = 1_000_000;

/// The nodes of a track up to a stop, within how many nm, and how many microseconds after the first the nodes are that are kept.
struct Case {
    stop: &'static [u8],
    nodes: &'static [&'static [u8]],
    within: u64,
    kept: &'static [u64],
}

/// At 7.5 km/s on a line.
const ON_A_LINE: &[&[u8]] = &[
    b"2025-01-01T00:00:00 7000 -225 0 0 7.5 0",
    b"2025-01-01T00:00:30 7000 0 0 0 7.5 0",
    b"2025-01-01T00:01:00 7000 225 0 0 7.5 0",
];

/// At rest, two metres away in the middle.
const AWAY: &[&[u8]] = &[
    b"2025-01-01T00:00:00 7000 0 0 0 0 0",
    b"2025-01-01T00:00:30 7000.002 0 0 0 0 0",
    b"2025-01-01T00:01:00 7000 0 0 0 0 0",
];

/// In one place, with half a metre a second in the middle: 2.2 m away between the nodes, and at each node not at all.
const IN_PASSING: &[&[u8]] = &[
    b"2025-01-01T00:00:00 7000 0 0 0 0 0",
    b"2025-01-01T00:00:30 7000 0 0 0 0.0005 0",
    b"2025-01-01T00:01:00 7000 0 0 0 0 0",
];

/// 0.9 m to one side and then to the other: a step over both stands for them, and one over the first does not.
const TO_BOTH_SIDES: &[&[u8]] = &[
    b"2025-01-01T00:00:00 7000 0 0 0 0 0",
    b"2025-01-01T00:00:20 7000 -0.0009 0 0 0 0",
    b"2025-01-01T00:00:40 7000 0.0009 0 0 0 0",
    b"2025-01-01T00:01:00 7000 0 0 0 0 0",
];

/// A metre away in the middle, and a nanometre more.
const A_METRE: &[&[u8]] = &[
    b"2025-01-01T00:00:00 7000 0 0 0 0 0",
    b"2025-01-01T00:00:30 7000 0.001 0 0 0 0",
    b"2025-01-01T00:01:00 7000 0 0 0 0 0",
];

const MORE_THAN_A_METRE: &[&[u8]] = &[
    b"2025-01-01T00:00:00 7000 0 0 0 0 0",
    b"2025-01-01T00:00:30 7000 0.001000000001 0 0 0 0",
    b"2025-01-01T00:01:00 7000 0 0 0 0 0",
];

/// At rest for an hour, and for two seconds more.
const AN_HOUR: &[&[u8]] = &[
    b"2025-01-01T00:00:00 7000 0 0 0 0 0",
    b"2025-01-01T00:30:00 7000 0 0 0 0 0",
    b"2025-01-01T01:00:00 7000 0 0 0 0 0",
];

const MORE_THAN_AN_HOUR: &[&[u8]] = &[
    b"2025-01-01T00:00:00 7000 0 0 0 0 0",
    b"2025-01-01T00:30:01 7000 0 0 0 0 0",
    b"2025-01-01T01:00:02 7000 0 0 0 0 0",
];

/// At rest, with two nodes alone.
const TWO: &[&[u8]] = &[
    b"2025-01-01T00:00:00 7000 0 0 0 0 0",
    b"2025-01-01T00:01:00 7000 0 0 0 0 0",
];

const MINUTE: &[u8] = b"STOP_TIME = 2025-01-01T00:01:00";

const HOUR: &[u8] = b"STOP_TIME = 2025-01-01T01:00:00";

const ALL_THREE: &[u64] = &[0, 30 * SECOND, 60 * SECOND];

const ENDS: &[u64] = &[0, 60 * SECOND];

const CASES: [Case; 12] = [
    Case {
        stop: MINUTE,
        nodes: ON_A_LINE,
        within: METRE,
        kept: ENDS,
    },
    Case {
        stop: MINUTE,
        nodes: AWAY,
        within: METRE,
        kept: ALL_THREE,
    },
    Case {
        stop: MINUTE,
        nodes: AWAY,
        within: 3 * METRE,
        kept: ENDS,
    },
    Case {
        stop: MINUTE,
        nodes: IN_PASSING,
        within: 2 * METRE,
        kept: ALL_THREE,
    },
    Case {
        stop: MINUTE,
        nodes: IN_PASSING,
        within: 3 * METRE,
        kept: ENDS,
    },
    Case {
        stop: MINUTE,
        nodes: TO_BOTH_SIDES,
        within: METRE,
        kept: &[0, 20 * SECOND, 40 * SECOND, 60 * SECOND],
    },
    Case {
        stop: MINUTE,
        nodes: TO_BOTH_SIDES,
        within: 2 * METRE,
        kept: ENDS,
    },
    Case {
        stop: MINUTE,
        nodes: A_METRE,
        within: METRE,
        kept: ENDS,
    },
    Case {
        stop: MINUTE,
        nodes: MORE_THAN_A_METRE,
        within: METRE,
        kept: ALL_THREE,
    },
    Case {
        stop: HOUR,
        nodes: AN_HOUR,
        within: METRE,
        kept: &[0, 3600 * SECOND],
    },
    Case {
        stop: HOUR,
        nodes: MORE_THAN_AN_HOUR,
        within: METRE,
        kept: &[0, 1801 * SECOND, 3602 * SECOND],
    },
    Case {
        stop: MINUTE,
        nodes: TWO,
        within: METRE,
        kept: ENDS,
    },
];

/// The number of the first case whose kept nodes are others.
fn first_wrong(alloc: Global, cases: &[Case]) -> Result<Option<usize>, OemFault> {
    for (i, case) in cases.iter().enumerate() {
        let track = track_of(alloc, case.stop, case.nodes)?;
        if kept(alloc, &track, case.within)?.as_slice() != case.kept {
            return Ok(Some(i));
        }
    }
    Ok(None)
}

#[test]
fn a_step_goes_as_far_as_all_up_to_it_stand_for_what_they_leave_out(rt: HostRuntime) {
    assert_eq!(rt;
        first_wrong(rt.alloc(), CASES.as_slice()).expect(&rt, "no fault"),
        None
    );
}

/// A node each second on a line, so many.
fn each_second(alloc: Global, count: u8) -> Result<Track, OemFault> {
    let mut lines = Vec::new(alloc);
    for second in 0..count {
        let (minute, rest) = (second / 60, second % 60);
        let tens = rest / 10;
        let ones = rest % 10;
        lines.push(format!(in alloc;
            "2025-01-01T00:0{minute}:{tens}{ones} 7000 {second} 0 0 1 0"
        )?.into_bytes())?;
    }
    let nodes: Vec<&[u8]> = lines.iter().map(|line| line.as_slice()).collect(alloc)?;
    track_of(alloc, MINUTE, &nodes)
}

#[test]
fn a_step_goes_over_64_pieces_and_no_more(rt: HostRuntime) {
    let track = each_second(rt.alloc(), 67).expect(&rt, "no fault");
    let kept = kept(rt.alloc(), &track, METRE).expect(&rt, "no fault");
    assert_eq!(rt; kept.as_slice(), [0, 64 * SECOND, 66 * SECOND].as_slice());
}

/// Two segments that share a tick: the first is useable within its nodes, the second has a covariance.
const BEFORE: &[u8] = b"CCSDS_OEM_VERS = 2.0
CREATION_DATE = 1972-01-01T00:00:00.000000
ORIGINATOR = CONJ
META_START
OBJECT_NAME = SAT A
OBJECT_ID = 2025-001A
CENTER_NAME = EARTH
REF_FRAME = GCRF
TIME_SYSTEM = UTC
START_TIME = 2025-01-01T00:00:00.000010
STOP_TIME = 2025-01-01T00:00:00.000050
INTERPOLATION = HERMITE
INTERPOLATION_DEGREE = 3
META_STOP
2025-01-01T00:00:00.000000 7000.000000000000 0.000000000000 0.000000000000 0.000000000000 0.000000000000 0.000000000000
2025-01-01T00:00:00.000020 7000.000000000000 0.000000000000 0.000000000000 0.000000000000 0.000000000000 0.000000000000
2025-01-01T00:00:00.000060 7000.000000000000 0.000000000000 0.000000000000 0.000000000000 0.000000000000 0.000000000000
META_START
OBJECT_NAME = SAT A
OBJECT_ID = 2025-001A
CENTER_NAME = EARTH
REF_FRAME = GCRF
TIME_SYSTEM = UTC
START_TIME = 2025-01-01T00:00:00.000050
STOP_TIME = 2025-01-01T00:00:00.000080
INTERPOLATION = HERMITE
INTERPOLATION_DEGREE = 3
META_STOP
2025-01-01T00:00:00.000040 7000.000000000000 0.000000000000 0.000000000000 0.000000000000 0.000000000000 0.000000000000
2025-01-01T00:00:00.000070 7000.010000000000 0.000000000000 0.000000000000 0.000000000000 0.000000000000 0.000000000000
2025-01-01T00:00:00.000090 7000.010000000000 0.000000000000 0.000000000000 0.000000000000 0.000000000000 0.000000000000
COVARIANCE_START
EPOCH = 2025-01-01T00:00:00.000060
COV_REF_FRAME = RTN
1.0E-04
-2.5E-05 1.0E-04
0.0E+00 0.0E+00 0.0E+00
0.0E+00 0.0E+00 0.0E+00 1.0E-04
0.0E+00 0.0E+00 0.0E+00 0.0E+00 0.0E+00
-2.5E-05 0.0E+00 0.0E+00 0.0E+00 0.0E+00 1.0E-04
COVARIANCE_STOP
";

/// The same within a metre: the middle node of the second segment is more than that away from a straight way.
const AFTER: &[u8] = b"CCSDS_OEM_VERS = 2.0
CREATION_DATE = 1972-01-01T00:00:00.000000
ORIGINATOR = CONJ
META_START
OBJECT_NAME = SAT A
OBJECT_ID = 2025-001A
CENTER_NAME = EARTH
REF_FRAME = GCRF
TIME_SYSTEM = UTC
START_TIME = 2025-01-01T00:00:00.000010
STOP_TIME = 2025-01-01T00:00:00.000050
INTERPOLATION = HERMITE
INTERPOLATION_DEGREE = 3
META_STOP
2025-01-01T00:00:00.000000 7000.000000000000 0.000000000000 0.000000000000 0.000000000000 0.000000000000 0.000000000000
2025-01-01T00:00:00.000060 7000.000000000000 0.000000000000 0.000000000000 0.000000000000 0.000000000000 0.000000000000
META_START
OBJECT_NAME = SAT A
OBJECT_ID = 2025-001A
CENTER_NAME = EARTH
REF_FRAME = GCRF
TIME_SYSTEM = UTC
START_TIME = 2025-01-01T00:00:00.000050
STOP_TIME = 2025-01-01T00:00:00.000080
INTERPOLATION = HERMITE
INTERPOLATION_DEGREE = 3
META_STOP
2025-01-01T00:00:00.000040 7000.000000000000 0.000000000000 0.000000000000 0.000000000000 0.000000000000 0.000000000000
2025-01-01T00:00:00.000070 7000.010000000000 0.000000000000 0.000000000000 0.000000000000 0.000000000000 0.000000000000
2025-01-01T00:00:00.000090 7000.010000000000 0.000000000000 0.000000000000 0.000000000000 0.000000000000 0.000000000000
COVARIANCE_START
EPOCH = 2025-01-01T00:00:00.000060
COV_REF_FRAME = RTN
1.0E-04
-2.5E-05 1.0E-04
0.0E+00 0.0E+00 0.0E+00
0.0E+00 0.0E+00 0.0E+00 1.0E-04
0.0E+00 0.0E+00 0.0E+00 0.0E+00 0.0E+00
-2.5E-05 0.0E+00 0.0E+00 0.0E+00 0.0E+00 1.0E-04
COVARIANCE_STOP
";

/// The canonical text of a track within a metre of the one of a text.
fn thin_text(alloc: Global, text: &[u8]) -> Result<Vec<u8>, OemFault> {
    let track = read(alloc, text)?;
    Ok(oem_text(alloc, &thin(alloc, &track, METRE)?)?)
}

#[test]
fn all_but_the_nodes_left_out_is_as_before(rt: HostRuntime) {
    let text = thin_text(rt.alloc(), BEFORE).expect(&rt, "no fault");
    assert_eq!(rt; text.as_slice(), AFTER);
}

/// The first of so many microseconds of 2025 at which only one of two tracks has a state.
fn first_unlike(one: &Track, other: &Track, micros: u32) -> Option<u32> {
    (0..micros).find(|after| {
        let at = Tick::nearest(1_735_689_600_000_000 + u64::from(*after));
        piece_at(one, at).is_some() != piece_at(other, at).is_some()
    })
}

/// Where that is for a track and what it is within a metre.
fn first_changed(alloc: Global, text: &[u8]) -> Result<Option<u32>, OemFault> {
    let track = read(alloc, text)?;
    Ok(first_unlike(&track, &thin(alloc, &track, METRE)?, 100))
}

#[test]
fn a_tick_has_a_state_where_it_had_one(rt: HostRuntime) {
    assert_eq!(rt;
        first_changed(rt.alloc(), BEFORE).expect(&rt, "no fault"),
        None
    );
}
