//! In what a certificate that is refused differs from the case for which it is checked.
use crate::certificates::{AT_REST, RESTING};
use crate::runs::{run_at_gate, with_certificate};
use crate::scenes::{Content, Scene, files_of};
use crate::versions::AT_REST_2;
use cj_io::{Difference, Differing, Gate};
use std::panic::Expect;
use std::sync::Wait;
use std::sync::atomic::{AtomicUsize, Ordering};

/// A gate that counts the differences that are as they should be, in order, and the others.
#[derive(Drop)]
struct Comparing {
    due: &'static [Difference],
    told: AtomicUsize,
    others: AtomicUsize,
}

impl Gate for Comparing {
    fn enter<R: Wait>(&self, _rt: &R, _worker: u32, _turn: u64) {}

    fn differ(&self, difference: Difference) {
        let at = self.told.fetch_add(1, Ordering::SeqCst);
        match self.due.get(at) {
            Some(due) if *due == difference => {}
            _ => {
                self.others.fetch_add(1, Ordering::SeqCst);
            }
        }
    }
}

/// A third object, far from the two.
const THREE: Scene = &[
    ("a.oem", Content::Rest("7000 0 0")),
    ("b.oem", Content::Rest("7005 0 0")),
    ("c.oem", Content::Rest("9000 0 0")),
];

/// The two with a radius of a metre.
const SIZED: Scene = &[
    ("a.oem", Content::Rest("7000 0 0")),
    ("b.oem", Content::Rest("7005 0 0")),
    ("sizes.txt", Content::Text("2025-001A 1\n")),
];

const START: Difference = Difference {
    of: Differing::Start,
    stated: 1_735_689_600_000_000,
    asked: 1_735_689_610_000_000,
};

const STOP: Difference = Difference {
    of: Differing::Stop,
    stated: 1_735_689_660_000_000,
    asked: 1_735_689_650_000_000,
};

const THRESHOLD: Difference = Difference {
    of: Differing::Threshold,
    stated: 5_000_000_000_000,
    asked: 4_000_000_000_000,
};

const OBJECTS: Difference = Difference {
    of: Differing::Objects,
    stated: 2,
    asked: 3,
};

const SIZE: Difference = Difference {
    of: Differing::Size { object: 1 },
    stated: 0,
    asked: 1_000_000_000,
};

const OTHERWISE: &str =
    "check . --from 2025-01-01T00:00:10 --to 2025-01-01T00:00:50 --threshold 4000";

/// A command line over files and a certificate, and the differences that are told.
type Case = (&'static str, Scene, &'static [u8], &'static [Difference]);

const CASES: [Case; 7] = [
    ("check .", RESTING, AT_REST, &[]),
    (OTHERWISE, RESTING, AT_REST, &[START, STOP, THRESHOLD]),
    ("rewrite . --threshold 4000", RESTING, AT_REST, &[THRESHOLD]),
    ("check .", THREE, AT_REST, &[OBJECTS]),
    ("check .", RESTING, AT_REST_2, &[]),
    ("check . --sizes sizes.txt", SIZED, AT_REST_2, &[SIZE]),
    (
        "check . --sizes sizes.txt --threshold 4000",
        SIZED,
        AT_REST_2,
        &[THRESHOLD, SIZE],
    ),
];

#[test]
fn what_a_certificate_states_otherwise_is_told(rt: HostRuntime) {
    let alloc = rt.alloc();
    for (line, scene, certificate, due) in CASES {
        let gate = Comparing {
            due,
            told: AtomicUsize::new(0),
            others: AtomicUsize::new(0),
        };
        let files = files_of(alloc, scene).expect(&rt, "no fault");
        let files = with_certificate(alloc, files, certificate).expect(&rt, "no fault");
        let (end, _) = run_at_gate(&rt, alloc, line, files, &gate).expect(&rt, "no fault");
        assert_eq!(rt; end.number, u8::from(!due.is_empty()));
        assert_eq!(rt; gate.told.load(Ordering::SeqCst), due.len());
        assert_eq!(rt; gate.others.load(Ordering::SeqCst), 0);
    }
}
