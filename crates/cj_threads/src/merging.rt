//! Runs merged into one list: ranges of them are merged by threads, and what comes of them is put behind one another.
ghost use Rattle.std.specs.Prelude.{◌≡◌, ◌<◌, get_or, length, map, flat_map, All, IfOk};
ghost use Rattle.std.specs.List.Sorted.{IsPermutation};
ghost use Rattle.cj_case.specs.PairOrder.{AreInOrderBy};
ghost use Rattle.cj_threads.specs.Runs.{elements_of, AreMerged, IsMerged};

use crate::dealing::map_dealt;
use crate::dealt_parts::all_made;
use crate::joining::put_together;
use crate::placed::Placed;
use crate::ranges::{count_of, cut_into_ranges};
use crate::sorting::put_in_order;
use crate::told::Nobody;
use std::alloc::{AllocError, Global};
use std::thread::Threads;

/// From so many elements on a merge is worth a second thread.
const MANY: usize = 16_384;

/// So many ranges for each worker: what a worker holds beside the lists, while it sorts one, is little then.
const RANGES_A_WORKER: usize = 16;

/// The elements of some runs, by one thread: they are sorted, and so come out in order whatever came.
fn merge_in_turn<T: Placed + Copy>(alloc: Global, runs: &[&[T]]) -> Result<Vec<T>, AllocError>
    ensures elements { IfOk result (λ all. IsPermutation (elements_of runs.now) all.items) }
    ensures ordered { IfOk result (λ all. AreInOrderBy T.place_of all.items) }
{
    let mut all = Vec::with_capacity(alloc, count_of(runs))?;
    for run in runs {
        all.extend_from_slice(run)?;
    }
    put_in_order(&mut all)?;
    Ok(all)
}

/// Ranges merged each into a list of its own, by as many threads as there are workers: each takes the next range.
fn merge_each<T: Placed + Copy + Send + Sync, R: Threads + Sync>(
    rt: &R,
    alloc: Global,
    ranges: &[Vec<&[T]>],
    workers: usize,
) -> Result<Vec<Vec<T>>, AllocError>
    ensures { IfOk result (λ lists. AreMerged T.place_of ranges.now lists.items) }
{
    let merge = |number: usize| -> Result<Vec<T>, AllocError>
        requires { number < length ranges.now }
        ensures { (d : _) → IfOk result (IsMerged T.place_of (get_or ranges.entry.now number d)) }
    { merge_in_turn(alloc, &ranges[number]) };
    let lists = map_dealt(rt, alloc, ranges.len(), workers, &Nobody, &merge)?;
    all_made(alloc, lists)
}

/// Runs as slices.
fn slices<T>(alloc: Global, runs: &[Vec<T>]) -> Result<Vec<&[T]>, AllocError>
    ensures { IfOk result (λ all. map (λ run. run.now) all.items ≡ map (λ run. run.items) runs.now) }
{
    let mut all = Vec::with_capacity(alloc, runs.len())?;
    for run in runs {
        all.push(run.as_slice())?;
    }
    Ok(all)
}

/// Ranges of some runs, each merged into a list of its own, by as many threads as there are workers.
fn merge_ranges<T: Placed + Copy + Send + Sync, R: Threads + Sync>(
    rt: &R,
    alloc: Global,
    runs: Vec<&[T]>,
    workers: usize,
) -> Result<Vec<Vec<T>>, AllocError>
    ensures elements { IfOk result (λ lists. IsPermutation (elements_of runs.entry.items) (flat_map (λ list. list.items) lists.items)) }
    ensures ordered { IfOk result (λ lists. All (λ list. AreInOrderBy T.place_of list.items) lists.items) }
{
    let ranges = cut_into_ranges(alloc, runs, workers.saturating_mul(RANGES_A_WORKER))?;
    merge_each(rt, alloc, &ranges, workers)
}

/// The elements of some runs, in order whatever came, by as many threads as there are workers. The runs are given up before the list is made that
/// takes all elements.
pub fn merge_runs<T: Placed + Copy + Send + Sync, R: Threads + Sync>(
    rt: &R,
    alloc: Global,
    runs: Vec<Vec<T>>,
    workers: usize,
) -> Result<Vec<T>, AllocError>
    ensures elements { IfOk result (λ all. IsPermutation (flat_map (λ run. run.items) runs.items) all.items) }
    ensures ordered { IfOk result (λ all. AreInOrderBy T.place_of all.items) }
{
    let parts = slices(alloc, &runs)?;
    let count = count_of(&parts);
    if workers < 2 || count < MANY {
        return merge_in_turn(alloc, &parts);
    }
    let lists = merge_ranges(rt, alloc, parts, workers)?;
    drop(runs);
    put_together(alloc, lists, count)
}
