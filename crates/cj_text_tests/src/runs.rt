use cj_base::Tick;
use cj_case::{Cell, Pair};
use cj_threads::merge_runs;
use std::alloc::{AllocError, Global};
use std::panic::Expect;
use std::process::Abort;
use std::thread::Threads;

/// The cell of one tick with this number.
fn cell(number: u32) -> Cell {
    let tick = Tick {
        micros: Tick::FIRST.micros + u64::from(number),
    };
    Cell {
        pair: Pair { a: 0, b: 1 },
        root: 0,
        first: tick,
        last: tick,
    }
}

/// So many cells from a number on, each so far behind the one before.
fn cells(alloc: Global, from: u32, step: u32, count: u32) -> Result<Vec<Cell>, AllocError> {
    let mut all = Vec::new(alloc);
    for at in 0..count {
        all.push(cell(at.wrapping_mul(step).wrapping_add(from)))?;
    }
    Ok(all)
}

/// So many runs of so many cells each, which come to all numbers from 0 on.
fn runs(alloc: Global, count: u32, length: u32) -> Result<Vec<Vec<Cell>>, AllocError> {
    let mut all = Vec::new(alloc);
    for from in 0..count {
        all.push(cells(alloc, from, count, length)?)?;
    }
    Ok(all)
}

/// Runs whose cells take turns become one list in order.
fn take_turns<R: Threads + Sync + Abort>(
    rt: &R,
    alloc: Global,
    count: u32,
    length: u32,
    workers: usize,
) {
    let merged = merge_runs(
        rt,
        alloc,
        runs(alloc, count, length).expect(rt, "no fault"),
        workers,
    )
    .expect(rt, "no fault");
    let expected = cells(alloc, 0, 1, count.wrapping_mul(length)).expect(rt, "no fault");
    assert!(rt; merged.as_slice() == expected.as_slice());
}

#[test]
fn runs_become_one_list(rt: HostRuntime) {
    let cases: [(u32, u32, usize); 8] = [
        (0, 5, 1),
        (1, 5, 2),
        (2, 5, 0),
        (2, 20_000, 2),
        (3, 10_000, 4),
        (4, 9_000, 4),
        (5, 4_000, 3),
        (16, 2_000, 16),
    ];
    for (count, length, workers) in cases {
        take_turns(&rt, rt.alloc(), count, length, workers);
    }
}

/// Runs of so many cells each, one behind the other, become one list in order, by so many workers.
fn follow_each_other<R: Threads + Sync + Abort>(
    rt: &R,
    alloc: Global,
    lengths: &[u32],
    workers: usize,
) {
    let mut runs = Vec::new(alloc);
    let mut count = 0u32;
    for length in lengths {
        runs.push(cells(alloc, count, 1, *length).expect(rt, "no fault"))
            .expect(rt, "no fault");
        count = count.wrapping_add(*length);
    }
    let merged = merge_runs(rt, alloc, runs, workers).expect(rt, "no fault");
    let expected = cells(alloc, 0, 1, count).expect(rt, "no fault");
    assert!(rt; merged.as_slice() == expected.as_slice());
}

/// One run lies within a gap of another, is empty, or is all that there is.
#[test]
fn runs_of_unlike_lengths(rt: HostRuntime) {
    let lengths: [[u32; 3]; 5] = [
        [20_000, 3, 0],
        [3, 20_000, 0],
        [0, 40_000, 0],
        [0, 1, 40_000],
        [9_000, 30_000, 2],
    ];
    for workers in [1usize, 4, 16] {
        for row in &lengths {
            follow_each_other(&rt, rt.alloc(), row, workers);
        }
    }
}

/// So many cells from a number down to 0.
fn falling(alloc: Global, count: u32) -> Result<Vec<Cell>, AllocError> {
    let mut all = Vec::new(alloc);
    for at in 0..count {
        all.push(cell(count.wrapping_sub(at).wrapping_sub(1)))?;
    }
    Ok(all)
}

/// A run that falls becomes one list in order with a run that rises, by so many workers.
fn come_in_order<R: Threads + Sync + Abort>(rt: &R, alloc: Global, count: u32, workers: usize) {
    let mut runs = Vec::new(alloc);
    runs.push(falling(alloc, count).expect(rt, "no fault"))
        .expect(rt, "no fault");
    runs.push(cells(alloc, count, 1, count).expect(rt, "no fault"))
        .expect(rt, "no fault");
    let merged = merge_runs(rt, alloc, runs, workers).expect(rt, "no fault");
    let expected = cells(alloc, 0, 1, count.wrapping_mul(2)).expect(rt, "no fault");
    assert!(rt; merged.as_slice() == expected.as_slice());
}

#[test]
fn runs_that_are_not_in_order(rt: HostRuntime) {
    for workers in [1usize, 4, 16] {
        come_in_order(&rt, rt.alloc(), 10, workers);
        come_in_order(&rt, rt.alloc(), 20_000, workers);
    }
}

/// Runs of cells that are all at one place come to as many such cells, by so many workers.
fn stay_at_one_place<R: Threads + Sync + Abort>(rt: &R, alloc: Global, workers: usize) {
    let mut runs = Vec::new(alloc);
    for _ in 0..3 {
        runs.push(cells(alloc, 7, 0, 10_000).expect(rt, "no fault"))
            .expect(rt, "no fault");
    }
    let merged = merge_runs(rt, alloc, runs, workers).expect(rt, "no fault");
    let expected = cells(alloc, 7, 0, 30_000).expect(rt, "no fault");
    assert!(rt; merged.as_slice() == expected.as_slice());
}

#[test]
fn cells_at_one_place(rt: HostRuntime) {
    for workers in [1usize, 4, 16] {
        stay_at_one_place(&rt, rt.alloc(), workers);
    }
}
