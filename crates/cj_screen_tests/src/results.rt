//! The reports and summaries of runs.
use crate::runs::run;
use crate::scenes::{CROSSING, Content, GCRF, OF_DEGREE_SEVEN, SHARING_ONE_TICK, Scene, files_of};
use std::alloc::{AllocError, Global};
use std::panic::Expect;
use std::sync::Wait;
use std::thread::Threads;

/// A run, what stands in its report behind the last object, and the numbers of its summary in order.
#[derive(Clone, Copy)]
struct Case {
    line: &'static str,
    scene: Scene,
    spans: &'static [u8],
    counts: [u64; 12],
}

const WORDS: [&str; 12] = [
    "OBJECTS",
    "PAIRS",
    "PARTED",
    "TOUCHING",
    "ROOTS",
    "SPLITS",
    "LEAVES",
    "FAR",
    "NEAR",
    "UNDECIDED",
    "ENCOUNTERS",
    "MESSAGES",
];

const NO_ENCOUNTER: &[u8] = b"END\n";

const NEAR_THROUGHOUT: &[u8] = b"ENCOUNTER 1 1 2 NEAR 2025-01-01T00:00:00.000000 5000000000000 NOCOV
SPAN NEAR 2025-01-01T00:00:00.000000 2025-01-01T00:01:00.000000
END
";

const AT_ONE_PLACE: &[u8] = b"ENCOUNTER 1 1 2 NEAR 2025-01-01T00:00:00.000000 0 NOCOV
SPAN NEAR 2025-01-01T00:00:00.000000 2025-01-01T00:01:00.000000
END
";

const CROSSED: &[u8] = b"ENCOUNTER 1 1 2 NEAR 2025-01-01T00:00:30.000000 1000000000000 NOCOV
SPAN NEAR 2025-01-01T00:00:29.538120 2025-01-01T00:00:30.461880
END
";

/// Two objects at rest whose leaves of two slots are near, whose shells are parted, or whose boxes do not touch.
const NEAR: [u64; 12] = [2, 1, 0, 2, 2, 0, 2, 0, 2, 0, 1, 0];

const PARTED: [u64; 12] = [2, 1, 1, 0, 0, 0, 0, 0, 0, 0, 0, 0];

const UNTOUCHED: [u64; 12] = [2, 1, 0, 0, 0, 0, 0, 0, 0, 0, 0, 0];

/// Two tracks that stay within a nanometre of the threshold and come to it at their last tick.
const IN_THE_BAND: Scene = &[
    (
        "a.oem",
        Content::Minute(
            "7000 0 0 0 0.000000000001 0",
            "7000 0.00000000006 0 0 0.000000000001 0",
            &[],
        ),
    ),
    (
        "b.oem",
        Content::Minute(
            "7005 0 0 0 0.000000000001 0",
            "7005 0.00000000006 0 0 0.000000000001 0",
            &[],
        ),
    ),
];

/// An object that is elsewhere from the middle of the minute on, and one at the threshold of its first place.
const JUMPING: Scene = &[
    (
        "a.oem",
        Content::Two(&[
            (11, b"STOP_TIME = 2025-01-01T00:00:30"),
            (16, b"2025-01-01T00:00:30 7000 0 0 0 0 0"),
        ]),
    ),
    ("b.oem", Content::Rest("7005 0 0")),
];

/// An object that is unknown for twenty seconds, and one at the threshold of its place.
const PAUSING: Scene = &[
    (
        "a.oem",
        Content::Two(&[
            (11, b"STOP_TIME = 2025-01-01T00:00:20"),
            (16, b"2025-01-01T00:00:20 7000 0 0 0 0 0"),
            (23, b"START_TIME = 2025-01-01T00:00:40"),
            (28, b"2025-01-01T00:00:40 7000 0 0 0 0 0"),
            (29, b"2025-01-01T00:01:00 7000 0 0 0 0 0"),
        ]),
    ),
    ("b.oem", Content::Rest("7005 0 0")),
];

/// Two objects at rest three metres beyond the threshold, and a file with their radii.
const SIZED: Scene = &[
    ("a.oem", Content::Rest("7000 0 0")),
    ("sizes.txt", Content::Text("2025-001A 1.5\n")),
    ("b.oem", Content::Rest("7005.003 0 0")),
];

const CASES: [Case; 21] = [
    // Two radii of a metre and a half bridge three metres; none do not, nor do smaller ones.
    Case {
        line: "screen . --sizes sizes.txt",
        scene: SIZED,
        spans: b"SIZE 1500000000
ENCOUNTER 1 1 2 NEAR 2025-01-01T00:00:00.000000 5003000000000 NOCOV
SPAN NEAR 2025-01-01T00:00:00.000000 2025-01-01T00:01:00.000000
END
",
        counts: NEAR,
    },
    Case {
        line: "screen .",
        scene: SIZED,
        spans: NO_ENCOUNTER,
        counts: PARTED,
    },
    Case {
        line: "screen . --sizes=sizes.txt",
        scene: &[
            ("a.oem", Content::Rest("7000 0 0")),
            (
                "sizes.txt",
                Content::Text("COMMENT radii in metres\n\n2025-001A 1.499999999\n"),
            ),
            ("b.oem", Content::Rest("7005.003 0 0")),
        ],
        spans: b"SIZE 1499999999\nEND\n",
        counts: PARTED,
    },
    // Two tracks cross at one kilometre, in their whole minute and where 49 leaves are the limit.
    Case {
        line: "screen .",
        scene: CROSSING,
        spans: CROSSED,
        counts: [2, 1, 0, 1, 1, 48, 49, 22, 27, 0, 1, 0],
    },
    Case {
        line: "screen . --cells 49",
        scene: CROSSING,
        spans: CROSSED,
        counts: [2, 1, 0, 1, 1, 48, 49, 22, 27, 0, 1, 0],
    },
    // Objects at rest are judged to the nanometre, by their shells or by their boxes.
    Case {
        line: "screen .",
        scene: &[
            ("a.oem", Content::Rest("7000 0 0")),
            ("b.oem", Content::Rest("7005 0 0")),
        ],
        spans: NEAR_THROUGHOUT,
        counts: NEAR,
    },
    Case {
        line: "screen .",
        scene: &[
            ("a.oem", Content::Rest("7000 0 0")),
            ("b.oem", Content::Rest("7005.000000000001 0 0")),
        ],
        spans: NO_ENCOUNTER,
        counts: PARTED,
    },
    Case {
        line: "screen .",
        scene: &[
            ("a.oem", Content::Rest("7000 0 0")),
            ("b.oem", Content::Rest("7000 0 0")),
        ],
        spans: AT_ONE_PLACE,
        counts: NEAR,
    },
    Case {
        line: "screen .",
        scene: &[
            ("a.oem", Content::Rest("7000 0 0")),
            ("b.oem", Content::Rest("42164 0 0")),
        ],
        spans: NO_ENCOUNTER,
        counts: PARTED,
    },
    Case {
        line: "screen .",
        scene: &[
            ("a.oem", Content::Rest("7000 0 0")),
            ("b.oem", Content::Rest("7000 5 0")),
        ],
        spans: NEAR_THROUGHOUT,
        counts: NEAR,
    },
    Case {
        line: "screen .",
        scene: &[
            ("a.oem", Content::Rest("7000 0 0")),
            ("b.oem", Content::Rest("7000 5.000000000001 0")),
        ],
        spans: NO_ENCOUNTER,
        counts: UNTOUCHED,
    },
    // What lies in the band is undecided.
    Case {
        line: "screen .",
        scene: IN_THE_BAND,
        spans: b"ENCOUNTER 1 1 2 NEAR 2025-01-01T00:00:00.000000 5000000000000 NOCOV
SPAN UNDECIDED 2025-01-01T00:00:00.000000 2025-01-01T00:00:59.999999
SPAN NEAR 2025-01-01T00:01:00.000000 2025-01-01T00:01:00.000000
END
",
        counts: [2, 1, 0, 2, 2, 0, 2, 0, 1, 1, 1, 0],
    },
    Case {
        line: "screen . --from 2025-01-01T00:00:00.000001 --to 2025-01-01T00:00:59.900000",
        scene: IN_THE_BAND,
        spans: b"ENCOUNTER 1 1 2 UNDECIDED 2025-01-01T00:00:00.000001 5000000000001 NOCOV
SPAN UNDECIDED 2025-01-01T00:00:00.000001 2025-01-01T00:00:59.900000
END
",
        counts: [2, 1, 0, 1, 1, 0, 1, 0, 0, 1, 1, 0],
    },
    // Useable spans that share one tick meet at it.
    Case {
        line: "screen .",
        scene: SHARING_ONE_TICK,
        spans: b"ENCOUNTER 1 1 2 NEAR 2025-01-01T00:00:30.000000 5000000000000 NOCOV
SPAN NEAR 2025-01-01T00:00:30.000000 2025-01-01T00:00:30.000000
END
",
        counts: [2, 1, 0, 1, 1, 0, 1, 0, 1, 0, 1, 0],
    },
    // The tick that two segments share belongs to the later, and each segment has a root of its own.
    Case {
        line: "screen .",
        scene: JUMPING,
        spans: b"ENCOUNTER 1 1 2 NEAR 2025-01-01T00:00:00.000000 5000000000000 NOCOV
SPAN NEAR 2025-01-01T00:00:00.000000 2025-01-01T00:00:29.999999
END
",
        counts: [2, 1, 0, 1, 2, 0, 2, 1, 1, 0, 1, 0],
    },
    // Separate segments have an encounter each.
    Case {
        line: "screen .",
        scene: PAUSING,
        spans: b"ENCOUNTER 1 1 2 NEAR 2025-01-01T00:00:00.000000 5000000000000 NOCOV
SPAN NEAR 2025-01-01T00:00:00.000000 2025-01-01T00:00:20.000000
ENCOUNTER 2 1 2 NEAR 2025-01-01T00:00:40.000000 5000000000000 NOCOV
SPAN NEAR 2025-01-01T00:00:40.000000 2025-01-01T00:01:00.000000
END
",
        counts: [2, 1, 0, 2, 3, 0, 3, 0, 3, 0, 2, 0],
    },
    // Every pair of three objects is compared; the outer two are six kilometres apart in radius. A file of notes is not taken.
    Case {
        line: "screen .",
        scene: &[
            ("c.oem", Content::Rest("7006 0 0")),
            ("notes.txt", Content::Rest("7000 0 0")),
            ("a.oem", Content::Rest("7000 0 0")),
            ("b.oem", Content::Rest("7003 0 0")),
        ],
        spans: b"ENCOUNTER 1 1 2 NEAR 2025-01-01T00:00:00.000000 3000000000000 NOCOV
SPAN NEAR 2025-01-01T00:00:00.000000 2025-01-01T00:01:00.000000
ENCOUNTER 2 2 3 NEAR 2025-01-01T00:00:00.000000 3000000000000 NOCOV
SPAN NEAR 2025-01-01T00:00:00.000000 2025-01-01T00:01:00.000000
END
",
        counts: [3, 3, 1, 4, 4, 0, 4, 0, 4, 0, 2, 0],
    },
    // A higher degree is screened as a cubic where that is asked for.
    Case {
        line: "screen . --as-hermite3",
        scene: OF_DEGREE_SEVEN,
        spans: NEAR_THROUGHOUT,
        counts: NEAR,
    },
    // Two files in another frame are screened: both are at rest at one place.
    Case {
        line: "screen .",
        scene: &[
            ("b.oem", Content::One(&[GCRF])),
            ("a.oem", Content::One(&[GCRF])),
        ],
        spans: AT_ONE_PLACE,
        counts: NEAR,
    },
    // An empty folder has a window of one tick.
    Case {
        line: "screen .",
        scene: &[],
        spans: b"CONJ-REPORT 1
WINDOW 1972-01-01T00:00:00.000000 1972-01-01T00:00:00.000000
THRESHOLD 5000000000000
END
",
        counts: [0; 12],
    },
    // One object has no pair.
    Case {
        line: "screen .",
        scene: &[("a.oem", Content::Rest("7000 0 0"))],
        spans: NO_ENCOUNTER,
        counts: [1, 0, 0, 0, 0, 0, 0, 0, 0, 0, 0, 0],
    },
];

/// The summary of these numbers.
fn summary_of(alloc: Global, counts: [u64; 12]) -> Result<Vec<u8>, AllocError> {
    let mut text = Vec::new(alloc);
    for (word, number) in WORDS.iter().zip(counts.iter()) {
        let line = format!(in alloc; "{word} {number}\n")?;
        text.extend_from_slice(line.as_bytes())?;
    }
    Ok(text)
}

/// What stands in a report behind its last object's name, and all of it where there is no object.
fn spans_of(report: &[u8]) -> &[u8] {
    let front = b"NAME SAT A\n";
    match report
        .windows(front.len())
        .rposition(|part| part == front.as_slice())
    {
        Some(at) => &report[at + front.len()..],
        None => report,
    }
}

/// Whether a case has its report and its summary.
fn is_reported<R: Threads + Wait + Sync>(
    rt: &R,
    alloc: Global,
    case: &Case,
) -> Result<bool, AllocError> {
    let ran = run(rt, alloc, case.line, files_of(alloc, case.scene)?)?;
    let summary = summary_of(alloc, case.counts)?;
    Ok(spans_of(&ran.report) == case.spans && ran.told.as_slice() == summary.as_slice())
}

/// The place of the first case with another report or summary.
fn first_wrong<R: Threads + Wait + Sync>(
    rt: &R,
    alloc: Global,
    cases: &[Case],
) -> Result<Option<usize>, AllocError> {
    for (place, case) in cases.iter().enumerate() {
        if !is_reported(rt, alloc, case)? {
            return Ok(Some(place));
        }
    }
    Ok(None)
}

#[test]
fn each_scene_has_its_spans_and_counts(rt: HostRuntime) {
    assert_eq!(rt;
        first_wrong(&rt, rt.alloc(), CASES.as_slice()).expect(&rt, "no fault"),
        None
    );
}

/// A command line, the files of its folder, and the whole report.
type Reported<'a> = (&'a str, Scene, &'a [u8]);

const REPORTS: [Reported; 4] = [
    (
        "screen . --from 2025-01-01T00:00:29.500000 --to 2025-01-01T00:00:30.499999",
        CROSSING,
        b"CONJ-REPORT 1
WINDOW 2025-01-01T00:00:29.500000 2025-01-01T00:00:30.499999
THRESHOLD 5000000000000
OBJECT 1
FILE a.oem
ID 2025-001A
NAME SAT A
OBJECT 2
FILE b.oem
ID 2025-001A
NAME SAT A
ENCOUNTER 1 1 2 NEAR 2025-01-01T00:00:30.000000 1000000000000 NOCOV
SPAN NEAR 2025-01-01T00:00:29.538120 2025-01-01T00:00:30.461880
END
",
    ),
    // Files are taken by their suffix.
    (
        "screen . --suffix .txt",
        &[
            ("b.txt", Content::Rest("7005 0 0")),
            ("c.oem", Content::Rest("7000 0 0")),
            ("a.txt", Content::Rest("7000 0 0")),
        ],
        b"CONJ-REPORT 1
WINDOW 2025-01-01T00:00:00.000000 2025-01-01T00:01:00.000000
THRESHOLD 5000000000000
OBJECT 1
FILE a.txt
ID 2025-001A
NAME SAT A
OBJECT 2
FILE b.txt
ID 2025-001A
NAME SAT A
ENCOUNTER 1 1 2 NEAR 2025-01-01T00:00:00.000000 5000000000000 NOCOV
SPAN NEAR 2025-01-01T00:00:00.000000 2025-01-01T00:01:00.000000
END
",
    ),
    // Each object has the size of its own designator, and none where that is not given whole. The file of sizes is no ephemeris.
    (
        "screen . --suffix t --sizes sizes.txt",
        &[
            (
                "a.t",
                Content::Minute(
                    "7000 0 0 0 0 0",
                    "7000 0 0 0 0 0",
                    &[(6, b"OBJECT_ID = 2025-001B")],
                ),
            ),
            ("sizes.txt", Content::Text("2025-001A 1\n2025-001B 2\n")),
            ("b.t", Content::Rest("7005.003 0 0")),
        ],
        b"CONJ-REPORT 1
WINDOW 2025-01-01T00:00:00.000000 2025-01-01T00:01:00.000000
THRESHOLD 5000000000000
OBJECT 1
FILE a.t
ID 2025-001B
NAME SAT A
SIZE 2000000000
OBJECT 2
FILE b.t
ID 2025-001A
NAME SAT A
SIZE 1000000000
ENCOUNTER 1 1 2 NEAR 2025-01-01T00:00:00.000000 5003000000000 NOCOV
SPAN NEAR 2025-01-01T00:00:00.000000 2025-01-01T00:01:00.000000
END
",
    ),
    (
        "screen . --sizes sizes.txt",
        &[
            ("sizes.txt", Content::Text("2025-001B 7\n2025-001 9\n")),
            ("a.oem", Content::Rest("7000 0 0")),
        ],
        b"CONJ-REPORT 1
WINDOW 2025-01-01T00:00:00.000000 2025-01-01T00:01:00.000000
THRESHOLD 5000000000000
OBJECT 1
FILE a.oem
ID 2025-001A
NAME SAT A
SIZE 0
END
",
    ),
];

/// Whether a run puts this report, and certificate and summary beside it.
fn is_whole<R: Threads + Wait + Sync>(
    rt: &R,
    alloc: Global,
    line: &str,
    scene: Scene,
    report: &[u8],
) -> Result<bool, AllocError> {
    let ran = run(rt, alloc, line, files_of(alloc, scene)?)?;
    Ok(ran.number == 0 && ran.outputs == 3 && ran.report.as_slice() == report)
}

/// The place of the first case with another report, or without certificate and summary beside it.
fn first_other<R: Threads + Wait + Sync>(
    rt: &R,
    alloc: Global,
    cases: &[Reported],
) -> Result<Option<usize>, AllocError> {
    for (place, (line, scene, report)) in cases.iter().enumerate() {
        if !is_whole(rt, alloc, line, scene, report)? {
            return Ok(Some(place));
        }
    }
    Ok(None)
}

#[test]
fn whole_reports(rt: HostRuntime) {
    assert_eq!(rt;
        first_other(&rt, rt.alloc(), REPORTS.as_slice()).expect(&rt, "no fault"),
        None
    );
}

#[test]
fn without_its_name_the_file_of_sizes_is_an_ephemeris(rt: HostRuntime) {
    let alloc = rt.alloc();
    let ran = run(
        &rt,
        alloc,
        "screen . --suffix t",
        files_of(alloc, SIZED).expect(&rt, "no fault"),
    )
    .expect(&rt, "no fault");
    assert_eq!(rt; ran.number, 3);
}
