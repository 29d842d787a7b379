//! The pairs that are not unchanged, and the roots of those that are candidates.
ghost use Rattle.std.specs.Prelude.{◌≤◌};

use crate::cases::{Object, one, three, two};
use cj_again::{changed_pairs, match_objects};
use cj_candidates::{find_wanted, measure_all};
use cj_case::{Cell, Pair, Problem};
use cj_cells::RefineError;
use cj_io::OpenGate;
use std::alloc::Global;
use std::panic::Expect;
use std::process::Abort;
use std::thread::Threads;

/// The pairs of a new problem that are not unchanged.
fn changed(rt: &impl Abort, alloc: Global, old: &Problem, new: &Problem) -> Vec<Pair> {
    let matching = match_objects(alloc, old, new).expect(rt, "no fault");
    changed_pairs(alloc, &matching).expect(rt, "no fault")
}

/// Their roots, at most so many, by so many workers.
fn changed_roots<R: Threads + Sync>(
    rt: &R,
    alloc: Global,
    old: &Problem,
    new: &Problem,
    workers: u32,
    limit: u64,
) -> Result<Vec<Cell>, RefineError>
    requires { limit ≤ 4_000_000 }
{
    let matching = match_objects(alloc, old, new)?;
    let measured = measure_all(rt, alloc, &OpenGate, new, workers)?;
    let pairs = changed_pairs(alloc, &matching)?;
    find_wanted(rt, alloc, &OpenGate, new, &measured, &pairs, workers, limit)
}

/// By so many workers there are two roots of changed pairs, those of the last object, which rests where both others pass, and no more are taken
/// than may be.
fn finds_those_of_the_last<R: Threads + Sync + Abort>(rt: &R, alloc: Global, workers: u32) {
    let old = two(rt, alloc, Object::AlongY, Object::AlongZ);
    let new = three(rt, alloc, Object::AlongY, Object::AlongZ, Object::Resting);
    let roots = changed_roots(rt, alloc, &old, &new, workers, 2).expect(rt, "no fault");
    assert_eq!(rt; roots.len(), 2);
    assert_eq!(rt;
        roots.first().map(|root| root.pair),
        Some(Pair { a: 0, b: 2 })
    );
    assert_eq!(rt;
        roots.last().map(|root| root.pair),
        Some(Pair { a: 1, b: 2 })
    );
    assert_eq!(rt; roots.first().map(|root| root.root), Some(0));
    assert_eq!(rt; roots.last().map(|root| root.root), Some(1));
    assert_eq!(rt;
        changed_roots(rt, alloc, &old, &new, workers, 1).err(),
        Some(RefineError::TooMany)
    );
    let new = three(rt, alloc, Object::AlongY, Object::AlongZ, Object::Distant);
    let roots = changed_roots(rt, alloc, &old, &new, workers, 0).expect(rt, "no fault");
    assert_eq!(rt; roots.len(), 0);
}

#[test]
fn the_pairs_that_are_not_unchanged_are_listed_in_order(rt: HostRuntime) {
    let alloc = rt.alloc();
    let old = two(&rt, alloc, Object::AlongY, Object::AlongZ);
    let new = three(&rt, alloc, Object::AlongY, Object::Resting, Object::AlongZ);
    let expected = [Pair { a: 0, b: 1 }, Pair { a: 1, b: 2 }];
    assert!(rt; changed(&rt, alloc, &old, &new).as_slice() == expected.as_slice());
    let none: [Pair; 0] = [];
    assert!(rt; changed(&rt, alloc, &new, &old).as_slice() == none.as_slice());
    let alone = one(&rt, alloc, Object::AlongY);
    let expected = [Pair { a: 0, b: 1 }];
    assert!(rt; changed(&rt, alloc, &alone, &old).as_slice() == expected.as_slice());
}

#[test]
fn one_worker_finds_the_roots_of_changed_pairs(rt: HostRuntime) {
    finds_those_of_the_last(&rt, rt.alloc(), 1);
}

#[test]
fn two_workers_find_the_same(rt: HostRuntime) {
    finds_those_of_the_last(&rt, rt.alloc(), 2);
}
