//! Runs that may take a whole sky: their limits, their certificates, and the checks of these.
use crate::brief::{AT_REST_3, FAR, FAR_3};
use crate::certificates::{AT_REST, RESTING, is_certified};
use crate::runs::{file, is_told, output_of, run, run_at, with_certificate};
use crate::scenes::{CROSSING, Content, Scene, base_text, copies, files_of};
use crate::versions::AT_REST_2;
use cj_base::Tick;
use std::alloc::{AllocError, Global};
use std::panic::Expect;
use std::sync::Wait;
use std::thread::Threads;

const ACCEPTED: &[u8] = b"ACCEPTED\n";

#[test]
fn certificates_are_in_brief(rt: HostRuntime) {
    let alloc = rt.alloc();
    for (scene, text) in [(RESTING, AT_REST_3), (FAR, FAR_3)] {
        for line in ["screen . --large", "screen . --brief --large --workers 2"] {
            assert!(rt;
                is_certified(&rt, alloc, line, scene, text).expect(&rt, "no fault"),
                "{line}"
            );
        }
    }
}

#[test]
fn certificates_are_read_in_brief_and_in_full(rt: HostRuntime) {
    let alloc = rt.alloc();
    for text in [AT_REST_3, AT_REST, AT_REST_2] {
        for line in ["check . --large", "check . --large --brief"] {
            let files = files_of(alloc, RESTING).expect(&rt, "no fault");
            let files = with_certificate(alloc, files, text).expect(&rt, "no fault");
            assert!(rt; is_told(&rt, alloc, line, files, ACCEPTED).expect(&rt, "no fault"));
        }
    }
}

/// Whether a run over what is asked of the window puts what it puts with a certificate in brief, and a check accepts its report.
fn puts_the_same<R: Threads + Wait + Sync>(
    rt: &R,
    alloc: Global,
    scene: Scene,
    window: &str,
) -> Result<bool, AllocError> {
    let line = format!(in alloc; "screen . --brief{window}")?;
    let (_, brief) = run_at(rt, alloc, &line, files_of(alloc, scene)?, Tick::FIRST)?;
    let line = format!(in alloc; "screen . --large{window}")?;
    let (_, large) = run_at(rt, alloc, &line, files_of(alloc, scene)?, Tick::FIRST)?;
    let mut files = files_of(alloc, scene)?;
    for name in [b"screen.cert".as_slice(), b"screen.report".as_slice()] {
        files.push(file(alloc, name, output_of(large.written(), name))?)?;
    }
    let line = format!(in alloc; "check . --large --report screen.report{window}")?;
    Ok(brief.written() == large.written() && is_told(rt, alloc, &line, files, ACCEPTED)?)
}

#[test]
fn all_that_is_put_is_as_in_brief(rt: HostRuntime) {
    for scene in [RESTING, FAR, CROSSING] {
        assert!(rt; puts_the_same(&rt, rt.alloc(), scene, "").expect(&rt, "no fault"));
    }
}

/// Two tracks with a node each minute, which cross in the middle of the third, and a third one with a gap there.
const FIVE_NODES: Scene = &[
    (
        "a.oem",
        Content::Nodes(
            &[(11, b"STOP_TIME = 2025-01-01T00:04:00")],
            "2025-01-01T00:00:00 7000 -1125 0 0 7.5 0
2025-01-01T00:01:00 7000 -675 0 0 7.5 0
2025-01-01T00:02:00 7000 -225 0 0 7.5 0
2025-01-01T00:03:00 7000 225 0 0 7.5 0
2025-01-01T00:04:00 7000 675 0 0 7.5 0
",
        ),
    ),
    (
        "b.oem",
        Content::Nodes(
            &[
                (5, b"OBJECT_NAME = SAT B"),
                (6, b"OBJECT_ID = 2025-002A"),
                (11, b"STOP_TIME = 2025-01-01T00:04:00"),
            ],
            "2025-01-01T00:00:00 7001 0 -1125 0 0 7.5
2025-01-01T00:01:00 7001 0 -675 0 0 7.5
2025-01-01T00:02:00 7001 0 -225 0 0 7.5
2025-01-01T00:03:00 7001 0 225 0 0 7.5
2025-01-01T00:04:00 7001 0 675 0 0 7.5
",
        ),
    ),
    (
        "c.oem",
        Content::Nodes(
            &[
                (5, b"OBJECT_NAME = SAT C"),
                (6, b"OBJECT_ID = 2025-003A"),
                (11, b"STOP_TIME = 2025-01-01T00:01:30"),
            ],
            "2025-01-01T00:00:00 7002 -225 0 0 0 0
2025-01-01T00:01:00 7002 -225 0 0 0 0
2025-01-01T00:02:00 7002 -225 0 0 0 0
META_START
OBJECT_NAME = SAT C
OBJECT_ID = 2025-003A
CENTER_NAME = EARTH
REF_FRAME = EME2000
TIME_SYSTEM = UTC
START_TIME = 2025-01-01T00:02:15
STOP_TIME = 2025-01-01T00:04:00
INTERPOLATION = HERMITE
INTERPOLATION_DEGREE = 3
META_STOP
2025-01-01T00:02:00 7002 0 0 0 0 0
2025-01-01T00:03:00 7002 0 0 0 0 0
2025-01-01T00:04:00 7002 0 0 0 0 0
",
        ),
    ),
];

/// From node to node, within one piece, up to one tick before a node, and where the third track has no state at first.
const WINDOWS: [&str; 4] = [
    " --from 2025-01-01T00:02:00 --to 2025-01-01T00:03:00",
    " --from 2025-01-01T00:02:20 --to 2025-01-01T00:02:40",
    " --from 2025-01-01T00:01:00 --to 2025-01-01T00:02:59.999999",
    " --from 2025-01-01T00:01:45 --to 2025-01-01T00:04:00",
];

/// Its tracks are trimmed to the window, and those of a run in brief are not.
#[test]
fn tracks_that_are_trimmed_are_screened_and_checked_alike(rt: HostRuntime) {
    for window in WINDOWS {
        assert!(rt;
            puts_the_same(&rt, rt.alloc(), FIVE_NODES, window).expect(&rt, "no fault"),
            "{window}"
        );
    }
}

/// A window of fourteen days, which has 20,161 slots.
const FOURTEEN_DAYS: &str =
    "screen . --large --from 2025-01-01T00:00:00 --to 2025-01-15T00:00:00 --must-cover";

#[test]
fn limits_are_those_of_a_whole_sky(rt: HostRuntime) {
    let alloc = rt.alloc();
    let text = base_text(alloc).expect(&rt, "no fault");
    let nothing = b"".as_slice();
    let cases: [(&str, usize, &[u8], &[u8]); 4] = [
        (
            "screen . --brief",
            2001,
            nothing,
            b"conj: limit: Objects 2001\n",
        ),
        (
            "check . --brief",
            2001,
            nothing,
            b"conj: limit: Objects 2001\n",
        ),
        // So many objects times slots are taken, and the first object is refused.
        (
            FOURTEEN_DAYS,
            200,
            text.as_slice(),
            b"conj: a.oem: line 0: Uncovered 2025-01-01T00:01:00.000001\n",
        ),
        (
            FOURTEEN_DAYS,
            3175,
            text.as_slice(),
            b"conj: limit: Slots 64011175\n",
        ),
    ];
    for (line, count, bytes, due) in cases {
        let files = copies(alloc, count, bytes).expect(&rt, "no fault");
        assert!(rt;
            is_told(&rt, alloc, line, files, due).expect(&rt, "no fault"),
            "{line} {count}"
        );
    }
    // So many files are read, and the first is refused.
    for line in ["screen . --large", "check . --large"] {
        let files = copies(alloc, 2001, b"").expect(&rt, "no fault");
        assert_eq!(rt;
            run(&rt, alloc, line, files).expect(&rt, "no fault").number,
            3
        );
    }
}

#[test]
fn leaves_are_limited_as_asked(rt: HostRuntime) {
    let alloc = rt.alloc();
    let files = files_of(alloc, CROSSING).expect(&rt, "no fault");
    let due = b"conj: limit: Cells 48\n";
    let line = "screen . --large --cells 48";
    assert!(rt; is_told(&rt, alloc, line, files, due).expect(&rt, "no fault"));
    let files = files_of(alloc, CROSSING).expect(&rt, "no fault");
    let line = "screen . --large --cells 400000000";
    assert_eq!(rt;
        run(&rt, alloc, line, files).expect(&rt, "no fault").number,
        0
    );
}
