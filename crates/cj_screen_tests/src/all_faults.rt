//! The first fault of each file.
use crate::runs::run_at_gate;
use crate::scenes::{Content, GCRF, Scene, files_of};
use cj_io::Gate;
use std::panic::Expect;
use std::sync::Wait;
use std::sync::atomic::{AtomicUsize, Ordering};

/// A gate that wants to be told all faults, and counts those that are as they should be, in order.
#[derive(Drop)]
struct Asking {
    due: &'static [&'static str],
    told: AtomicUsize,
    others: AtomicUsize,
}

impl Gate for Asking {
    fn enter<R: Wait>(&self, _rt: &R, _worker: u32, _turn: u64) {}

    fn wants_all_faults(&self) -> bool {
        true
    }

    fn refuse(&self, line: &[u8]) {
        let at = self.told.fetch_add(1, Ordering::SeqCst);
        match self.due.get(at) {
            Some(due) if due.as_bytes() == line => {}
            _ => {
                self.others.fetch_add(1, Ordering::SeqCst);
            }
        }
    }
}

/// The second, third, fifth and sixth file are refused.
const FAULTY: Scene = &[
    ("a.oem", Content::Rest("7000 0 0")),
    ("b.oem", Content::One(&[(13, b"INTERPOLATION_DEGREE = 7")])),
    ("c.oem", Content::One(&[GCRF])),
    ("d.oem", Content::Rest("7005 0 0")),
    (
        "e.oem",
        Content::One(&[
            (15, b"2025-01-01T00:00:60 7000 0 0 0 0 0"),
            (16, b"2025-01-01T00:01:00 7000 0 0"),
        ]),
    ),
    ("f.oem", Content::Text("CCSDS_OEM_VERS = 4.0\n")),
];

const LINES: &[&str] = &[
    "conj: b.oem: line 14: Interpolation\n",
    "conj: c.oem: line 0: MixedFrames\n",
    "conj: e.oem: line 15: Epoch SecondSixty\n",
    "conj: f.oem: line 1: Version\n",
];

const WITH_SIZES: &[&str] = &[
    "conj: b.oem: line 14: Interpolation\n",
    "conj: c.oem: line 0: MixedFrames\n",
    "conj: e.oem: line 15: Epoch SecondSixty\n",
    "conj: f.oem: line 1: Version\n",
    "conj: none.txt: line 0: NoSizes\n",
];

const SIZES_ALONE: &[&str] = &["conj: none.txt: line 0: NoSizes\n"];

const NOTHING: &[&str] = &[];

const SOUND: Scene = &[("a.oem", Content::Rest("7000 0 0"))];

/// The run ends as it does where the first fault alone is told.
#[test]
fn each_file_has_its_first_fault_told_in_order(rt: HostRuntime) {
    let alloc = rt.alloc();
    for (line, scene, due, number) in [
        ("screen .", FAULTY, LINES, 3),
        ("screen . --workers 2", FAULTY, LINES, 3),
        ("check .", FAULTY, LINES, 3),
        ("rewrite . --sizes none.txt", FAULTY, WITH_SIZES, 3),
        ("screen . --sizes none.txt", SOUND, SIZES_ALONE, 3),
        ("screen .", SOUND, NOTHING, 0),
    ] {
        let gate = Asking {
            due,
            told: AtomicUsize::new(0),
            others: AtomicUsize::new(0),
        };
        let files = files_of(alloc, scene).expect(&rt, "no fault");
        let (end, shelf) = run_at_gate(&rt, alloc, line, files, &gate).expect(&rt, "no fault");
        assert_eq!(rt; end.number, number);
        assert_eq!(rt; gate.told.load(Ordering::SeqCst), due.len());
        assert_eq!(rt; gate.others.load(Ordering::SeqCst), 0);
        assert!(rt; shelf.written().is_empty() || number == 0);
        if let Some(first) = due.first() {
            assert!(rt; end.line.as_slice() == first.as_bytes());
        }
    }
}
