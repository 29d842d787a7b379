//! Words, files and problems that are refused.
use crate::runs::{is_told, run};
use crate::scenes::{CROSSING, Content, GCRF, OF_DEGREE_SEVEN, Scene, base_text, copies, files_of};
use cj_io::FileBytes;
use std::alloc::{AllocError, Global};
use std::panic::Expect;
use std::sync::Wait;
use std::thread::Threads;

/// Two nodes thirty seconds before and after the leap second at the end of 2016.
const LEAP_SECOND: Scene = &[(
    "a.oem",
    Content::One(&[
        (10, b"START_TIME = 2016-12-31T23:59:30"),
        (11, b"STOP_TIME = 2017-01-01T00:00:30"),
        (15, b"2016-12-31T23:59:30 7000 0 0 0 0 0"),
        (16, b"2017-01-01T00:00:30 7000 0 0 0 0 0"),
    ]),
)];

/// A node at the sixtieth second before it.
const SECOND_SIXTY: Scene = &[(
    "a.oem",
    Content::One(&[
        (10, b"START_TIME = 2016-12-31T23:59:30"),
        (11, b"STOP_TIME = 2017-01-01T00:00:30"),
        (15, b"2016-12-31T23:59:30 7000 0 0 0 0 0"),
        (16, b"2016-12-31T23:59:60 7000 0 0 0 0 0"),
    ]),
)];

/// Two files in different frames; that of the first name is the second in the folder.
const MIXED: Scene = &[
    ("b.oem", Content::One(&[GCRF])),
    ("a.oem", Content::One(&[])),
];

/// A command line, the files of its folder, and the line that tells why it is refused.
type Case<'a> = (&'a str, Scene, &'a [u8]);

const WORDS: [Case; 7] = [
    (
        "screen DIR --threshold 0",
        CROSSING,
        b"conj: usage: Value --threshold\n",
    ),
    (
        "screen DIR --threshold 5 --threshold 5",
        CROSSING,
        b"conj: usage: Words\n",
    ),
    ("screen", CROSSING, b"conj: usage: Words\n"),
    ("fly DIR", CROSSING, b"conj: usage: Words\n"),
    (
        "screen DIR --cells=4000001",
        CROSSING,
        b"conj: usage: Value --cells\n",
    ),
    (
        "screen DIR --from 2025-366T00:00:00",
        CROSSING,
        b"conj: usage: Value --from\n",
    ),
    (
        "screen DIR --from 2025-001T00:00:01Z --to 2025-01-01T00:00:00",
        CROSSING,
        b"conj: usage: Value --to\n",
    ),
];

const FILES: [Case; 7] = [
    (
        "screen .",
        &[(
            "a.oem",
            Content::One(&[(15, b"2025-01-01T00:00:00 7000 X 0 0 0 0")]),
        )],
        b"conj: a.oem: line 15: Number\n",
    ),
    (
        "screen .",
        OF_DEGREE_SEVEN,
        b"conj: a.oem: line 14: Interpolation\n",
    ),
    (
        "screen .",
        SECOND_SIXTY,
        b"conj: a.oem: line 16: Epoch SecondSixty\n",
    ),
    (
        "screen .",
        LEAP_SECOND,
        b"conj: a.oem: line 16: LeapSecond\n",
    ),
    ("screen .", MIXED, b"conj: b.oem: line 0: MixedFrames\n"),
    // Limits.
    ("screen . --cells 48", CROSSING, b"conj: limit: Cells 48\n"),
    (
        "screen . --from 2025-01-01T00:00:00 --to 2025-01-15T00:00:00.000001",
        &[],
        b"conj: limit: Window 1209600000001\n",
    ),
];

/// A line that names a file of sizes.
const SIZED: &str = "screen . --sizes sizes.txt";

const SIZES: [Case; 9] = [
    (
        SIZED,
        &[("sizes.txt", Content::Text("2025-001A\n"))],
        b"conj: sizes.txt: line 1: Sizes Form\n",
    ),
    (
        SIZED,
        &[("sizes.txt", Content::Text("2025-001A x\n"))],
        b"conj: sizes.txt: line 1: Sizes Number\n",
    ),
    (
        SIZED,
        &[("sizes.txt", Content::Text("2025-001A -1\n"))],
        b"conj: sizes.txt: line 1: Sizes Range\n",
    ),
    (
        SIZED,
        &[("sizes.txt", Content::Text("2025-001A 1000.000000001\n"))],
        b"conj: sizes.txt: line 1: Sizes Range\n",
    ),
    (
        SIZED,
        &[("sizes.txt", Content::Text("A 1\nA 1\n"))],
        b"conj: sizes.txt: line 2: Sizes Twice\n",
    ),
    (SIZED, CROSSING, b"conj: sizes.txt: line 0: NoSizes\n"),
    (
        "screen . --sizes a/b",
        CROSSING,
        b"conj: usage: Value --sizes\n",
    ),
    // They come behind the ephemerides and before the window.
    (SIZED, MIXED, b"conj: b.oem: line 0: MixedFrames\n"),
    (
        "screen . --from 1972-01-01T00:00:00 --sizes sizes.txt",
        CROSSING,
        b"conj: sizes.txt: line 0: NoSizes\n",
    ),
];

/// The place of the first case in which another line is told.
fn first_wrong<R: Threads + Wait + Sync>(
    rt: &R,
    alloc: Global,
    cases: &[Case],
) -> Result<Option<usize>, AllocError> {
    for (place, (line, scene, due)) in cases.iter().enumerate() {
        if !is_told(rt, alloc, line, files_of(alloc, scene)?, due)? {
            return Ok(Some(place));
        }
    }
    Ok(None)
}

#[test]
fn what_is_refused_is_told(rt: HostRuntime) {
    let alloc = rt.alloc();
    assert_eq!(rt;
        first_wrong(&rt, alloc, WORDS.as_slice()).expect(&rt, "no fault"),
        None
    );
    assert_eq!(rt;
        first_wrong(&rt, alloc, FILES.as_slice()).expect(&rt, "no fault"),
        None
    );
    assert_eq!(rt;
        first_wrong(&rt, alloc, SIZES.as_slice()).expect(&rt, "no fault"),
        None
    );
}

/// The number of the status in which a run over these files ends.
fn number_of<R: Threads + Wait + Sync>(
    rt: &R,
    alloc: Global,
    line: &str,
    files: Vec<FileBytes>,
) -> Result<u8, AllocError> {
    Ok(run(rt, alloc, line, files)?.number)
}

#[test]
fn limits_on_files_are_told_and_may_be_reached(rt: HostRuntime) {
    let alloc = rt.alloc();
    let line = "screen .";
    let due = b"conj: limit: Objects 2001\n";
    assert_eq!(rt;
        number_of(
            &rt,
            alloc,
            line,
            copies(alloc, 2001, b"").expect(&rt, "no fault")
        )
        .expect(&rt, "no fault"),
        6
    );
    assert!(rt;
        is_told(
            &rt,
            alloc,
            line,
            copies(alloc, 2001, b"").expect(&rt, "no fault"),
            due
        )
        .expect(&rt, "no fault")
    );
    // So many files are read, and the first is refused.
    assert_eq!(rt;
        number_of(
            &rt,
            alloc,
            line,
            copies(alloc, 2000, b"").expect(&rt, "no fault")
        )
        .expect(&rt, "no fault"),
        3
    );
}

#[test]
fn limits_on_the_window_are_told_and_may_be_reached(rt: HostRuntime) {
    let alloc = rt.alloc();
    let line = "screen . --from 2025-01-01T00:00:00 --to 2025-01-15T00:00:00";
    assert_eq!(rt;
        number_of(&rt, alloc, line, Vec::new(alloc)).expect(&rt, "no fault"),
        0
    );
    let line = "screen . --from 2025-01-01T00:00:00 --to 2025-01-14T21:20:00";
    let text = base_text(alloc).expect(&rt, "no fault");
    let due = b"conj: limit: Slots 4000200\n";
    assert!(rt;
        is_told(
            &rt,
            alloc,
            line,
            copies(alloc, 200, &text).expect(&rt, "no fault"),
            due
        )
        .expect(&rt, "no fault")
    );
}
