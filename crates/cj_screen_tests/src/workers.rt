//! Runs of several workers.
use crate::runs::run_at_gate;
use crate::scenes::{CROSSING, files_of};
use cj_io::{CalmShelf, FileBytes, Gate, OpenGate};
use std::alloc::{AllocError, Global};
use std::panic::Expect;
use std::sync::Wait;
use std::sync::atomic::{AtomicBool, AtomicUsize, Ordering};
use std::thread;
use std::thread::Threads;

/// The outputs of the crossing by so many workers, who enter this gate. There is none where the run fails.
pub fn outputs_by<R: Threads + Wait + Sync, G: Gate + Sync>(
    rt: &R,
    alloc: Global,
    workers: u32,
    gate: &G,
) -> Result<CalmShelf, AllocError> {
    let line = format!(in alloc; "screen . --workers {workers}")?;
    let (end, shelf) = run_at_gate(rt, alloc, line.as_str(), files_of(alloc, CROSSING)?, gate)?;
    if end.number == 0 {
        Ok(shelf)
    } else {
        Ok(CalmShelf::new(alloc))
    }
}

/// Whether these are the same outputs in the same order.
pub fn are_equal(outputs: &[FileBytes], others: &[FileBytes]) -> bool {
    outputs.len() == others.len()
        && outputs.iter().zip(others).all(|(output, other)| output.name == other.name
            && output.bytes == other.bytes)
}

#[test]
fn each_number_of_workers_puts_equal_outputs(rt: HostRuntime) {
    let alloc = rt.alloc();
    let one = outputs_by(&rt, alloc, 1, &OpenGate).expect(&rt, "no fault");
    assert_eq!(rt; one.written().len(), 3);
    for workers in [2, 3, 16] {
        let many = outputs_by(&rt, alloc, workers, &OpenGate).expect(&rt, "no fault");
        assert!(rt; are_equal(many.written(), one.written()));
    }
}

/// A gate for two workers that counts how often it is entered. Where one enters it for the first time, it says that it is there, and looks
/// for the other.
#[derive(Drop)]
struct Meeting {
    entries: AtomicUsize,
    zero: AtomicBool,
    one: AtomicBool,
    missed: AtomicBool,
}

impl Meeting {
    fn new() -> Meeting {
        Meeting {
            entries: AtomicUsize::new(0),
            zero: AtomicBool::new(false),
            one: AtomicBool::new(false),
            missed: AtomicBool::new(false),
        }
    }
}

/// Gives way until a flag is set, but not for ever; whether it was.
fn is_set_soon(flag: &AtomicBool) -> bool {
    for _ in 0..100_000_000u32 {
        if flag.load(Ordering::SeqCst) {
            return true;
        }
        thread::yield_now();
    }
    false
}

impl Gate for Meeting {
    fn enter<R: Wait>(&self, _rt: &R, worker: u32, turn: u64) {
        self.entries.fetch_add(1, Ordering::SeqCst);
        if turn > 1 {
            return;
        }
        let (own, other) = if worker == 0 {
            (&self.zero, &self.one)
        } else {
            (&self.one, &self.zero)
        };
        own.store(true, Ordering::SeqCst);
        if !is_set_soon(other) {
            self.missed.store(true, Ordering::SeqCst);
        }
    }
}

/// Neither worker goes on before it has seen the other at the gate. The 48 halvings and 49 leaves take a turn each.
#[test]
fn two_workers_meet_and_take_each_turn_at_the_gate(rt: HostRuntime) {
    let alloc = rt.alloc();
    let gate = Meeting::new();
    let two = outputs_by(&rt, alloc, 2, &gate).expect(&rt, "no fault");
    assert!(rt; gate.zero.load(Ordering::SeqCst));
    assert!(rt; gate.one.load(Ordering::SeqCst));
    assert!(rt; !gate.missed.load(Ordering::SeqCst));
    assert!(rt; gate.entries.load(Ordering::SeqCst) >= 97);
    assert_eq!(rt; two.written().len(), 3);
}
