//! What a person is warned of.
use crate::runs::run_at_gate;
use crate::scenes::{COVERED, CROSSING, Content, SHARING_ONE_TICK, Scene, files_of};
use cj_io::{Gate, Warning};
use std::panic::Expect;
use std::sync::Wait;
use std::sync::atomic::{AtomicU64, Ordering};

/// A gate that waits for one warning, and counts what it hears.
#[derive(Drop)]
struct Hearing {
    of: Warning,
    count: u64,
    first: &'static str,
    heard: AtomicU64,
    others: AtomicU64,
}

impl Gate for Hearing {
    fn enter<R: Wait>(&self, _rt: &R, _worker: u32, _turn: u64) {}

    fn is_warned(&self) -> bool {
        true
    }

    fn warn(&self, warning: Warning, count: u64, first: &[u8]) {
        let is_heard = warning == self.of && count == self.count && first == self.first.as_bytes();
        let counted = if is_heard { &self.heard } else { &self.others };
        counted.fetch_add(1, Ordering::SeqCst);
    }
}

/// A command line over files, a warning of so many things with the name of the first, how often it is heard, and how many others are.
type Case = (&'static str, Scene, Warning, u64, &'static str, u64, u64);

const OTHERWISE_NAMED: Scene = &[
    ("c.oem.gz", Content::Rest("7005 0 0")),
    ("b.OEM", Content::Rest("7000 0 0")),
];

const BESIDE: Scene = &[
    ("a.oem", Content::Rest("7000 0 0")),
    ("b.Oem", Content::Rest("7005 0 0")),
    ("notes.txt", Content::Text("nothing\n")),
];

const SIZED_BESIDE: Scene = &[
    ("a.oem", Content::Rest("7000 0 0")),
    ("b.oem.txt", Content::Rest("7005 0 0")),
    ("sizes.oem.txt", Content::Text("2025-001A 1\n")),
];

const SIZED: Scene = &[
    ("a.oem", Content::Rest("7000 0 0")),
    (
        "sizes.txt",
        Content::Text("2025-001B 1\n2025-001A 1\n2025-001C 1\n"),
    ),
];

const EARLIER: &str = "screen . --from 2024-01-01T00:00:00 --to 2024-01-01T00:01:00";

const LATER: &str = "screen . --from 2025-01-01T00:00:31";

/// The two files of the crossing have one designator, and no covariance.
const CASES: [Case; 15] = [
    ("screen .", &[], Warning::NoFiles, 0, "", 1, 0),
    (
        "screen .",
        OTHERWISE_NAMED,
        Warning::NothingTaken,
        2,
        "b.OEM",
        1,
        1,
    ),
    (
        "screen .",
        OTHERWISE_NAMED,
        Warning::LeftOut,
        2,
        "b.OEM",
        1,
        1,
    ),
    ("screen .", BESIDE, Warning::LeftOut, 1, "b.Oem", 1, 0),
    (
        "screen . --sizes sizes.oem.txt",
        SIZED_BESIDE,
        Warning::LeftOut,
        1,
        "b.oem.txt",
        1,
        0,
    ),
    ("thin .", BESIDE, Warning::LeftOut, 1, "b.Oem", 1, 0),
    ("thin .", &[], Warning::NoFiles, 0, "", 1, 0),
    ("screen .", CROSSING, Warning::SameObject, 1, "b.oem", 1, 1),
    ("screen .", CROSSING, Warning::NoMessage, 1, "a.oem", 1, 1),
    ("screen .", COVERED, Warning::NoMessage, 1, "a.oem", 0, 0),
    (EARLIER, COVERED, Warning::OutsideWindow, 2, "a.oem", 1, 0),
    (LATER, SHARING_ONE_TICK, Warning::NoState, 1, "a.oem", 1, 1),
    (
        "screen . --sizes sizes.txt",
        SIZED,
        Warning::StrangeSize,
        2,
        "2025-001B",
        1,
        0,
    ),
    (
        "screen . --sizes sizes.txt --workers 2",
        SIZED,
        Warning::StrangeSize,
        2,
        "2025-001B",
        1,
        0,
    ),
    (
        "selfrun --objects 2 --minutes 2",
        &[],
        Warning::NoFiles,
        0,
        "",
        0,
        0,
    ),
];

#[test]
fn what_may_not_be_meant_is_told_with_its_count_and_first_name(rt: HostRuntime) {
    let alloc = rt.alloc();
    for (line, scene, of, count, first, heard, others) in CASES {
        let gate = Hearing {
            of,
            count,
            first,
            heard: AtomicU64::new(0),
            others: AtomicU64::new(0),
        };
        let files = files_of(alloc, scene).expect(&rt, "no fault");
        let (end, _) = run_at_gate(&rt, alloc, line, files, &gate).expect(&rt, "no fault");
        assert_eq!(rt; end.number, 0);
        assert_eq!(rt; gate.heard.load(Ordering::SeqCst), heard);
        assert_eq!(rt; gate.others.load(Ordering::SeqCst), others);
    }
}
