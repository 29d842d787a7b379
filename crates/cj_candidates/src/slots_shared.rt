//! Slots that several threads search, until all of them together have found too many roots.
ghost use Rattle.std.specs.Prelude.{◌≡◌, ◌+◌, ◌<◌, ◌≤◌, length, map, min, take, vec_len, true, false, All, IfOk, OnOk};
ghost use Rattle.cj_base.specs.Bounds.{MOST_LEAVES};
ghost use Rattle.cj_case.specs.Pairs.{objects_of};
ghost use Rattle.cj_case.specs.Problems.{plain_problem};
ghost use Rattle.cj_hermite.specs.Roots.{roots_in_slot};
ghost use Rattle.cj_cells.specs.Cells.{added_roots};
ghost use Rattle.cj_candidates.specs.SlotRuns.{AreFoundIn, IsFoundIn, sought_in};
ghost use Rattle.cj_candidates.specs.SoughtPairs.{candidates_of};

use crate::crowding::is_crowd;
use crate::ground::Ground;
use crate::slot_boxes::boxes_in_slot;
use crate::slot_run::ThreadRun;
use crate::slots_searched::candidates_among;
use crate::together::Together;
use cj_case::{Cell, Pair, Problem};
use cj_cells::{RefineError, roots_of_slot};
use cj_hermite::Hints;
use cj_io::{Gate, Stage};
use cj_threads::{Nobody, Placed, map_parts};
use std::alloc::{AllocError, Global};
use std::thread::Threads;

/// Appends the roots of some pairs of existing objects in a slot, and counts them. Whether it has appended all, and the threads are to go on.
fn append_some(
    alloc: Global,
    problem: &Problem,
    slot: u32,
    pairs: &[Pair],
    limit: u64,
    together: &Together,
    hints: &mut Hints,
    roots: &mut Vec<Cell>,
) -> Result<bool, AllocError>
    requires exist { All (λ pair. pair.b < length problem.now.tracks) pairs.now }
    requires limit { limit ≤ MOST_LEAVES }
    requires room { vec_len roots.old ≤ limit + 1 }
    ensures added { IfOk result (λ whole. whole ≡ true
        → added_roots roots.old.items roots.new.items ≡ roots_in_slot (plain_problem problem.now) slot (map objects_of pairs.now)) }
    ensures room { IfOk result (λ whole. whole ≡ true → vec_len roots.new ≤ limit + 1) }
    ensures few { OnOk result (vec_len roots.new ≤ vec_len roots.old + length (roots_in_slot (plain_problem problem.now) slot (map objects_of pairs.now))) }
    ensures kept { take (vec_len roots.old) roots.new.items ≡ roots.old.items }
{
    let before = roots.len();
    let appended = roots_of_slot(alloc, problem, slot, pairs, limit + 1, hints, roots);
    together.add(roots.len().saturating_sub(before));
    match appended {
        Ok(()) => Ok(!together.is_over(limit)),
        Err(error) => stopped_by(error),
    }
}

/// That a list of roots has no room for more is no want of memory.
fn stopped_by(error: RefineError) -> Result<bool, AllocError>
    ensures { IfOk result (λ whole. whole ≡ false) }
{
    match error {
        RefineError::Memory => Err(AllocError),
        RefineError::TooMany => Ok(false),
    }
}

/// So many pairs have their roots appended at once.
const PAIRS_AT_ONCE: usize = 64;

/// Appends the roots of pairs of existing objects in a slot, some pairs at a time, until the threads are to stop. Whether it has appended all.
fn append_until_stopped(
    alloc: Global,
    problem: &Problem,
    slot: u32,
    pairs: &[Pair],
    limit: u64,
    together: &Together,
    hints: &mut Hints,
    roots: &mut Vec<Cell>,
) -> Result<bool, AllocError>
    requires exist { All (λ pair. pair.b < length problem.now.tracks) pairs.now }
    requires limit { limit ≤ MOST_LEAVES }
    requires room { vec_len roots.old ≤ limit + 1 }
    ensures added { IfOk result (λ whole. whole ≡ true
        → added_roots roots.old.items roots.new.items ≡ roots_in_slot (plain_problem problem.now) slot (map objects_of pairs.now)) }
    ensures room { IfOk result (λ whole. whole ≡ true → vec_len roots.new ≤ limit + 1) }
    ensures few { OnOk result (vec_len roots.new ≤ vec_len roots.old + length (roots_in_slot (plain_problem problem.now) slot (map objects_of pairs.now))) }
    ensures kept { OnOk result (take (vec_len roots.old) roots.new.items ≡ roots.old.items) }
{
    let mut rest = pairs;
    while !rest.is_empty() {
        let (some, others) = rest.split_at(rest.len().min(PAIRS_AT_ONCE));
        if !append_some(alloc, problem, slot, some, limit, together, hints, roots)? {
            return Ok(false);
        }
        rest = others;
    }
    Ok(true)
}

/// Appends what is found in a slot, until the threads are to stop. Whether it has found all.
fn search_slot(
    alloc: Global,
    ground: &Ground<'_, '_>,
    slot: u32,
    limit: u64,
    together: &Together,
    hints: &mut Hints,
    run: &mut ThreadRun,
) -> Result<bool, AllocError>
    requires exists { slot < ground.now.slots }
    requires limit { limit ≤ MOST_LEAVES }
    requires room { vec_len run.old.roots ≤ limit + 1 }
    ensures added { IfOk result (λ whole. whole ≡ true → added_roots run.old.roots.items run.new.roots.items
        ≡ roots_in_slot (plain_problem ground.now.problem.now) slot (candidates_of (plain_problem ground.now.problem.now) (sought_in ground.now) slot)) }
    ensures candidate { IfOk result (λ whole. whole ≡ true → run.new.touching
        ≡ min (run.old.touching + length (candidates_of (plain_problem ground.now.problem.now) (sought_in ground.now) slot)) 18_446_744_073_709_551_615) }
    ensures room { IfOk result (λ whole. whole ≡ true → vec_len run.new.roots ≤ limit + 1) }
    ensures few { OnOk result (vec_len run.new.roots ≤ vec_len run.old.roots
        + length (roots_in_slot (plain_problem ground.now.problem.now) slot
        (candidates_of (plain_problem ground.now.problem.now) (sought_in ground.now) slot))) }
    ensures kept { OnOk result (take (vec_len run.old.roots) run.new.roots.items ≡ run.old.roots.items) }
    ensures stays { run.new.whole ≡ run.old.whole }
{
    let here = boxes_in_slot(alloc, ground, slot)?;
    let is_crowded = is_crowd(&here);
    if !together.begin(limit, is_crowded) {
        return Ok(false);
    }
    let pairs = candidates_among(alloc, ground, slot, &here)?;
    drop(here);
    run.touching = run.touching.saturating_add(pairs.len() as u64);
    let whole = append_until_stopped(
        alloc,
        ground.problem,
        slot,
        &pairs,
        limit,
        together,
        hints,
        &mut run.roots,
    )?;
    together.end(is_crowded);
    Ok(whole)
}

/// Some slots, one after another, until the threads are to stop. The roots are sorted, so that merging them takes one pass; no clause
/// hangs on their order. The gate is told of each slot.
fn search_some<G: Gate>(
    alloc: Global,
    gate: &G,
    ground: &Ground<'_, '_>,
    slots: &[u32],
    limit: u64,
    together: &Together,
) -> Result<ThreadRun, AllocError>
    requires exist { All (λ slot. slot < ground.now.slots) slots.now }
    requires limit { limit ≤ MOST_LEAVES }
    ensures { IfOk result (IsFoundIn (plain_problem ground.now.problem.now) (sought_in ground.now) slots.now) }
{
    let mut hints = Hints::new(alloc, ground.problem.tracks.as_slice().len())?;
    let mut run = ThreadRun {
        roots: Vec::new(alloc),
        touching: 0,
        whole: false,
    };
    for slot in slots {
        if !search_slot(alloc, ground, *slot, limit, together, &mut hints, &mut run)? {
            return Ok(run);
        }
        gate.advance(Stage::Minutes, 1);
    }
    run.roots.sort_by_key(|root: &Cell| root.place())?;
    run.whole = true;
    Ok(run)
}

/// What as many threads as there are workers find in some slots, so many slots a run, until they have found more roots than the limit, or
/// slots are so crowded that several of them at once take too much. Each thread takes the next run that no other has taken.
pub fn search_together<R: Threads + Sync, G: Gate + Sync>(
    rt: &R,
    alloc: Global,
    gate: &G,
    ground: &Ground<'_, '_>,
    slots: &[u32],
    size: usize,
    workers: u32,
    limit: u64,
) -> Result<Vec<ThreadRun>, AllocError>
    requires exist { All (λ slot. slot < ground.now.slots) slots.now }
    requires size { 0 < size }
    requires limit { limit ≤ MOST_LEAVES }
    ensures { IfOk result (λ runs. AreFoundIn (plain_problem ground.now.problem.now) (sought_in ground.now) slots.now runs.items) }
{
    gate.begin(Stage::Minutes, slots.len() as u64);
    let together = Together::new();
    let search = |some: &[u32]| -> Result<ThreadRun, AllocError>
        requires { All (λ slot. slot < ground.now.slots) some.now × (limit ≤ MOST_LEAVES) }
        ensures { IfOk result (IsFoundIn (plain_problem ground.entry.now.problem.now) (sought_in ground.entry.now) some.now) }
    { search_some(alloc, gate, ground, some, limit, &together) };
    map_parts(rt, alloc, slots, size, workers as usize, &Nobody, &search)
}
