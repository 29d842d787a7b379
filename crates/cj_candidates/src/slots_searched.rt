//! The roots of a run of slots: slot by slot, or by several threads.
ghost use Rattle.std.specs.Prelude.{◌≡◌, ◌+◌, ◌<◌, ◌≤◌, AllPairs, length, map, min, filter, flat_map, IfOk};
ghost use Rattle.std.specs.List.{list_all, range_with_len};
ghost use Rattle.std.specs.List.Sorted.{IsPermutation};
ghost use Rattle.cj_base.specs.Bounds.{MOST_LEAVES};
ghost use Rattle.cj_case.specs.Pairs.{objects_of};
ghost use Rattle.cj_case.specs.Problems.{plain_problem};
ghost use Rattle.cj_bezier.specs.Candidates.{boxes_in, is_touching};
ghost use Rattle.cj_case.specs.Boxes.{plain_boxes};
ghost use Rattle.cj_case.specs.Cells.{IsRootUpTo, plain_cells};
ghost use Rattle.cj_candidates.specs.SlotRuns.{AreSought, candidates_counted, roots_listed, sought_in};
ghost use Rattle.cj_candidates.specs.SoughtPairs.{candidates_of};

use crate::ground::Ground;
use crate::keeping::kept_of;
use crate::slot_boxes::boxes_in_slot;
use crate::slot_run::{SlotRun, ThreadRun};
use crate::slots_shared::search_together;
use crate::sought_pairs::Sought;
use crate::touching::touching_of;
use cj_case::{AxisBox, Cell, Pair};
use cj_cells::{RefineError, roots_of_slot};
use cj_grid::find_touching;
use cj_hermite::Hints;
use cj_io::{Gate, Stage};
use cj_sieve::ShelledObjects;
use cj_threads::{Placed, merge_runs};
use std::alloc::{AllocError, Global};
use std::thread::Threads;

/// Of the pairs that are sought those whose boxes touch in a slot, where its boxes are given.
fn touching_among(
    alloc: Global,
    ground: &Ground<'_, '_>,
    slot: u32,
    boxes: &[Option<AxisBox>],
) -> Result<Vec<Pair>, AllocError>
    requires { plain_boxes boxes.now ≡ boxes_in (plain_problem ground.now.problem.now) slot }
    ensures { IfOk result (λ pairs. map objects_of pairs.items ≡ filter (is_touching (plain_problem ground.now.problem.now) slot) (sought_in ground.now)) }
{
    let sizes = ground.problem.sizes.as_slice();
    let thr = ground.problem.threshold;
    match ground.sought {
        Sought::All => find_touching(alloc, boxes, sizes, thr),
        Sought::These(pairs) => touching_of(alloc, pairs, boxes, sizes, thr),
    }
}

/// The candidates of a slot, whose boxes are given: of those whose boxes touch the ones that are kept.
pub fn candidates_among(
    alloc: Global,
    ground: &Ground<'_, '_>,
    slot: u32,
    boxes: &[Option<AxisBox>],
) -> Result<Vec<Pair>, AllocError>
    requires { plain_boxes boxes.now ≡ boxes_in (plain_problem ground.now.problem.now) slot }
    ensures { IfOk result (λ pairs. map objects_of pairs.items ≡ candidates_of (plain_problem ground.now.problem.now) (sought_in ground.now) slot) }
{
    let problem = ground.problem;
    let touching = touching_among(alloc, ground, slot, boxes)?;
    let objects = ShelledObjects {
        shells: &ground.measured.shells,
        sizes: problem.sizes.as_slice(),
        primaries: &problem.primaries,
        thr: problem.threshold,
    };
    kept_of(alloc, &touching, &objects)
}

/// The candidates of a slot.
pub fn candidates_paired(
    alloc: Global,
    ground: &Ground<'_, '_>,
    slot: u32,
) -> Result<Vec<Pair>, AllocError>
    requires exists { slot < ground.now.slots }
    ensures { IfOk result (λ pairs. map objects_of pairs.items ≡ candidates_of (plain_problem ground.now.problem.now) (sought_in ground.now) slot) }
{
    let here = boxes_in_slot(alloc, ground, slot)?;
    candidates_among(alloc, ground, slot, &here)
}

/// So many slots from one on, one after another, with at most so many roots. The gate is told of each slot.
pub fn search_in_turn<G: Gate>(
    alloc: Global,
    gate: &G,
    ground: &Ground<'_, '_>,
    from: u32,
    count: u32,
    limit: u64,
) -> Result<SlotRun, RefineError>
    requires within { from + count ≤ ground.now.slots }
    requires limit { limit ≤ MOST_LEAVES }
    ensures { AreSought (plain_problem ground.now.problem.now) (sought_in ground.now) from count limit result }
{
    let problem = ground.problem;
    gate.begin(Stage::Minutes, u64::from(count));
    let mut hints = Hints::new(alloc, problem.tracks.as_slice().len())?;
    let mut roots = Vec::new(alloc);
    let mut touching = 0;
    for slot in from..from + count {
        let pairs = candidates_paired(alloc, ground, slot)?;
        touching += pairs.len() as u64;
        roots_of_slot(alloc, problem, slot, &pairs, limit, &mut hints, &mut roots)?;
        gate.advance(Stage::Minutes, 1);
    }
    roots.sort_by_key(|root: &Cell| root.place())?;
    Ok(SlotRun { roots, touching })
}

/// So many slots from one on, as a list.
fn slots_from(alloc: Global, from: u32, count: u32) -> Result<Vec<u32>, AllocError>
    requires { from + count ≤ u32.MAX }
    ensures { IfOk result (λ slots. slots.items ≡ range_with_len from count) }
{
    let mut slots = Vec::with_capacity(alloc, count as usize)?;
    for slot in from..from + count {
        slots.push(slot)?;
    }
    Ok(slots)
}

/// How many roots there are in some runs, or the greatest number that there is.
fn count_of(runs: &[ThreadRun]) -> usize
    ensures { result ≡ min (length (roots_listed runs.now)) usize.MAX }
{
    let mut count = 0usize;
    for run in runs {
        count = count.saturating_add(run.roots.len());
    }
    count
}

/// How many candidates some runs have counted together, or the greatest number that there is.
fn touching_in(runs: &[ThreadRun]) -> u64
    ensures { result ≡ candidates_counted runs.now }
{
    let mut touching = 0u64;
    for run in runs {
        touching = touching.saturating_add(run.touching);
    }
    touching
}

/// Whether no run was stopped.
fn are_whole(runs: &[ThreadRun]) -> bool
    ensures { result ≡ list_all (λ run. run.whole) runs.now }
{
    runs.iter().all(|run| run.whole)
}

/// The roots of some runs, a list for each.
fn roots_in(alloc: Global, runs: Vec<ThreadRun>) -> Result<Vec<Vec<Cell>>, AllocError>
    ensures { IfOk result (λ lists. flat_map (λ list. list.items) lists.items ≡ roots_listed runs.items) }
{
    let mut lists = Vec::with_capacity(alloc, runs.len())?;
    for run in runs {
        lists.push(run.roots)?;
    }
    Ok(lists)
}

/// Some runs in one, their roots merged by as many threads as there are workers.
fn merged<R: Threads + Sync>(
    rt: &R,
    alloc: Global,
    runs: Vec<ThreadRun>,
    workers: u32,
) -> Result<SlotRun, AllocError>
    ensures roots { IfOk result (λ run. IsPermutation (roots_listed runs.items) run.roots.items) }
    ensures ordered { IfOk result (λ run. AllPairs IsRootUpTo (plain_cells run.roots.items)) }
    ensures touching { IfOk result (λ run. run.touching ≡ candidates_counted runs.items) }
{
    let touching = touching_in(&runs);
    let lists = roots_in(alloc, runs)?;
    let roots = merge_runs(rt, alloc, lists, workers as usize)?;
    Ok(SlotRun { roots, touching })
}

/// Slots are cut into so many runs for each worker, or fewer.
const RUNS_A_WORKER: u32 = 8;

/// So many slots from one on, by as many threads as there are workers, with at most so many roots. The threads stop where they have found
/// too many together, which no clause says, or where slots are crowded: then one thread searches all.
pub fn search_slots<R: Threads + Sync, G: Gate + Sync>(
    rt: &R,
    alloc: Global,
    gate: &G,
    ground: &Ground<'_, '_>,
    from: u32,
    count: u32,
    workers: u32,
    limit: u64,
) -> Result<SlotRun, RefineError>
    requires within { from + count ≤ ground.now.slots }
    requires limit { limit ≤ MOST_LEAVES }
    ensures { AreSought (plain_problem ground.now.problem.now) (sought_in ground.now) from count limit result }
{
    if workers < 2 {
        return search_in_turn(alloc, gate, ground, from, count, limit);
    }
    let size = count.div_ceil(workers.saturating_mul(RUNS_A_WORKER));
    let slots = slots_from(alloc, from, count)?;
    let runs = search_together(
        rt,
        alloc,
        gate,
        ground,
        &slots,
        size.max(1) as usize,
        workers,
        limit,
    )?;
    if count_of(&runs) as u64 > limit {
        return Err(RefineError::TooMany);
    }
    if !are_whole(&runs) {
        return search_in_turn(alloc, gate, ground, from, count, limit);
    }
    Ok(merged(rt, alloc, runs, workers)?)
}
