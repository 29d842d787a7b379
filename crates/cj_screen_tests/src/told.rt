//! What a gate is told of a run.
use crate::workers::{are_equal, outputs_by};
use cj_io::{Gate, OpenGate, Stage};
use std::panic::Expect;
use std::sync::Wait;
use std::sync::atomic::{AtomicU64, Ordering};

/// How many parts a stage has, and how many of them are done.
#[derive(Drop)]
struct Parts {
    all: AtomicU64,
    done: AtomicU64,
}

impl Parts {
    fn none() -> Parts {
        Parts {
            all: AtomicU64::new(0),
            done: AtomicU64::new(0),
        }
    }

    /// Both, where the stage has begun.
    fn told(&self) -> (u64, u64) {
        (
            self.all.load(Ordering::SeqCst),
            self.done.load(Ordering::SeqCst),
        )
    }
}

/// A gate in memory, which keeps what it is told.
#[derive(Drop)]
struct Keeping {
    files: Parts,
    objects: Parts,
    minutes: Parts,
    cells: Parts,
    encounters: Parts,
    halved: AtomicU64,
    closed: AtomicU64,
}

impl Keeping {
    fn nothing() -> Keeping {
        Keeping {
            files: Parts::none(),
            objects: Parts::none(),
            minutes: Parts::none(),
            cells: Parts::none(),
            encounters: Parts::none(),
            halved: AtomicU64::new(0),
            closed: AtomicU64::new(0),
        }
    }

    fn parts(&self, stage: Stage) -> &Parts {
        match stage {
            Stage::Files => &self.files,
            Stage::Objects => &self.objects,
            Stage::Minutes => &self.minutes,
            Stage::Cells => &self.cells,
            Stage::Encounters => &self.encounters,
        }
    }
}

impl Gate for Keeping {
    fn enter<R: Wait>(&self, _rt: &R, _worker: u32, _turn: u64) {}

    fn begin(&self, stage: Stage, parts: u64) {
        let told = self.parts(stage);
        told.all.store(parts, Ordering::SeqCst);
        told.done.store(0, Ordering::SeqCst);
    }

    fn advance(&self, stage: Stage, parts: u64) {
        self.parts(stage).done.fetch_add(parts, Ordering::SeqCst);
    }

    fn looked(&self, _worker: u32, halved: u64, closed: u64) {
        self.halved.fetch_add(halved, Ordering::SeqCst);
        self.closed.fetch_add(closed, Ordering::SeqCst);
    }
}

/// The crossing has two files, two objects, two minutes, of which the second is one instant, and one pair in one piece of each, which meets once.
/// Its one root is halved 48 times.
#[test]
fn each_part_of_each_stage_is_told_once(rt: HostRuntime) {
    let alloc = rt.alloc();
    let untold = outputs_by(&rt, alloc, 1, &OpenGate).expect(&rt, "no fault");
    for workers in [1, 2, 16] {
        let gate = Keeping::nothing();
        let told = outputs_by(&rt, alloc, workers, &gate).expect(&rt, "no fault");
        assert!(rt; are_equal(told.written(), untold.written()));
        assert_eq!(rt; gate.files.told(), (2, 2));
        assert_eq!(rt; gate.objects.told(), (2, 2));
        assert_eq!(rt; gate.minutes.told(), (2, 2));
        assert_eq!(rt; gate.encounters.told(), (1, 1));
        assert_eq!(rt; gate.cells.all.load(Ordering::SeqCst), 1);
        assert_eq!(rt; gate.halved.load(Ordering::SeqCst), 48);
        assert_eq!(rt; gate.closed.load(Ordering::SeqCst), 49);
    }
}
