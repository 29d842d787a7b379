//! All slots of a problem, by several threads that take the next slab each.
ghost use Rattle.std.specs.Prelude.{◌≡◌, ℕ, ◌<◌, ◌≤◌, true, All, Any, IfOk, OnOk, IsErrOf, length};
ghost use Rattle.cj_base.specs.Bounds.{MOST_LEAVES};
ghost use Rattle.cj_case.specs.Leaves.{plain_leaves, IsTickOf};
ghost use Rattle.cj_case.specs.Order.{AreInOrder};
ghost use Rattle.cj_case.specs.Problems.{plain_problem};
ghost use Rattle.cj_case.specs.Slots.{slot_count, slot_of};
ghost use Rattle.cj_hermite.specs.ObjectsAtTicks.{IsCommonOf};
ghost use Rattle.cj_hermite.specs.Roots.{KeepPieces, slots_of};
ghost use Rattle.cj_bezier.specs.Candidates.{is_candidate};
ghost use Rattle.cj_bezier.specs.Enclosed.{OthersAreFar};
ghost use Rattle.cj_bezier.specs.MeasuredObjects.{AreMeasured};
ghost use Rattle.cj_bezier.specs.RootLeaves.{leaves_of_roots};
ghost use Rattle.cj_bezier.specs.ToldLeaves.{told_leaves};
ghost use Rattle.cj_cells.specs.Lists.{list_candidates, IsSound};
ghost use Rattle.cj_candidates.specs.Counts.{candidate_count};
ghost use Rattle.cj_candidates.specs.MeasuredObjects.{AreOfProblem};
ghost use Rattle.cj_candidates.specs.SoughtPairs.{HoldCandidates, pairs_sought};
ghost use Rattle.cj_slabs.specs.Counts.{AreCounts};
ghost use Rattle.cj_slabs.specs.Slabs.{AreOutcomes, AreSlabsOf, IsOutcome, leaves_listed, roots_at, told_of_roots};

use crate::joining::joined_within;
use crate::leaf_limits::LeafLimits;
use crate::sift_error::SiftError;
use crate::sifted::Sifted;
use crate::slab::Outcome;
use crate::slots_sifted::sift_some;
use crate::so_far::SoFar;
use crate::together::Together;
use cj_candidates::{Sought, few_kept, sought_among};
use cj_case::{Measured, Problem, slot_count};
use cj_io::{Gate, Stage};
use cj_threads::{Nobody, map_parts};
use std::alloc::{AllocError, Global};
use std::thread::Threads;

/// A slab has so many slots, or fewer.
const SLOTS_A_SLAB: usize = 4;

/// The slots of a problem, as a list.
fn all_slots(alloc: Global, problem: &Problem) -> Result<Vec<u32>, AllocError>
    ensures { IfOk result (λ slots. slots.items ≡ slots_of (plain_problem problem.now)) }
{
    let count = slot_count(problem.window);
    let mut slots = Vec::with_capacity(alloc, count as usize)?;
    for slot in 0..count {
        slots.push(slot)?;
    }
    Ok(slots)
}

/// What comes of some slots, slab by slab, by as many threads as there are workers: each takes the next slab that no other has taken, until
/// they have found more leaves together than the limit.
fn sift_together<R: Threads + Sync, G: Gate + Sync>(
    rt: &R,
    alloc: Global,
    gate: &G,
    problem: &Problem,
    measured: &Measured,
    sought: Sought<'_>,
    slots: &[u32],
    workers: u32,
    limits: LeafLimits,
) -> Result<Vec<Outcome>, AllocError>
    requires measured { AreMeasured (plain_problem problem.now) measured.now }
    requires sought { HoldCandidates (plain_problem problem.now) (pairs_sought (plain_problem problem.now) sought) }
    requires exist { All (λ slot. slot < slot_count problem.now.window.first.micros problem.now.window.last.micros) slots.now }
    requires limit { limits.leaves ≤ MOST_LEAVES }
    ensures { IfOk result (λ outcomes. AreOutcomes (plain_problem problem.now) slots.now outcomes.items) }
{
    gate.begin(Stage::Minutes, slots.len() as u64);
    let together = Together::new();
    let sift = |some: &[u32]| -> Result<Outcome, AllocError>
        requires { AreMeasured (plain_problem problem.now) measured.now
            × HoldCandidates (plain_problem problem.now) (pairs_sought (plain_problem problem.now) sought) × (limits.leaves ≤ MOST_LEAVES)
            × All (λ slot. slot < slot_count problem.now.window.first.micros problem.now.window.last.micros) some.now }
        ensures { IfOk result (IsOutcome (plain_problem problem.entry.now) some.now) }
    {
        let outcome = sift_some(
            alloc,
            gate,
            problem,
            measured,
            sought,
            some,
            limits,
            Some(&together),
        );
        if !is_whole(&outcome) {
            together.halt();
        }
        outcome
    };
    map_parts(
        rt,
        alloc,
        slots,
        SLOTS_A_SLAB,
        workers as usize,
        &Nobody,
        &sift,
    )
}

/// Whether slots were searched to their end.
fn is_whole(outcome: &Result<Outcome, AllocError>) -> bool {
    match outcome {
        Ok(Outcome::Whole(_) | Outcome::Counted { .. }) => true,
        Ok(Outcome::Stopped { .. }) => false,
        Err(_) => false,
    }
}

/// What is found in some slots by the thread that calls, slot by slot.
fn sift_alone<G: Gate>(
    alloc: Global,
    gate: &G,
    problem: &Problem,
    measured: &Measured,
    sought: Sought<'_>,
    slots: &[u32],
    limits: LeafLimits,
) -> Result<Sifted, SiftError>
    requires measured { AreMeasured (plain_problem problem.now) measured.now }
    requires sought { HoldCandidates (plain_problem problem.now) (pairs_sought (plain_problem problem.now) sought) }
    requires exist { All (λ slot. slot < slot_count problem.now.window.first.micros problem.now.window.last.micros) slots.now }
    requires limit { limits.leaves ≤ MOST_LEAVES }
    ensures found { IfOk result (AreSlabsOf (plain_problem problem.now) slots.now) }
    ensures within { IfOk result (λ found. found.counts.leaves ≤ limits.leaves) }
    ensures told_within { IfOk result (λ found. length (leaves_listed found.slabs.items) ≤ limits.told) }
    ensures too_many { IsErrOf result SiftError.TooMany
        → limits.leaves < length (leaves_of_roots (plain_problem problem.now) (roots_at (plain_problem problem.now) slots.now)) }
    ensures too_many_told { IsErrOf result SiftError.TooManyTold
        → limits.told < length (told_of_roots (plain_problem problem.now) (roots_at (plain_problem problem.now) slots.now)) }
    ensures few_leaves { IsErrOf result SiftError.TooManyTold
        → length (leaves_of_roots (plain_problem problem.now) (roots_at (plain_problem problem.now) slots.now)) ≤ limits.leaves }
{
    gate.begin(Stage::Minutes, slots.len() as u64);
    let mut so_far = SoFar::empty(alloc, limits);
    for slot in slots {
        let next = sift_some(
            alloc,
            gate,
            problem,
            measured,
            sought,
            &[*slot],
            limits,
            None,
        )?;
        so_far = so_far.with(next, limits)?;
    }
    match so_far {
        SoFar::Kept { found, .. } => Ok(found),
        SoFar::Given { .. } => Err(SiftError::TooManyTold),
    }
}

/// What is found of a problem, whose objects are measured, with at most so many leaves, of which at most so many are told: slab by slab, by as
/// many threads as there are workers. They stop where they have found too many together, which no clause says.
pub fn sift<R: Threads + Sync, G: Gate + Sync>(
    rt: &R,
    alloc: Global,
    gate: &G,
    problem: &Problem,
    measured: &Measured,
    workers: u32,
    limits: LeafLimits,
) -> Result<Sifted, SiftError>
    requires limit { limits.leaves ≤ MOST_LEAVES }
    requires measured { AreOfProblem problem.now measured.now }
    ensures too_many { IsErrOf result SiftError.TooMany → limits.leaves < length (list_candidates (plain_problem problem.now)) }

    // Told leaves are too many only where all leaves are not.
    ensures too_many_told { IsErrOf result SiftError.TooManyTold → limits.told < length (told_leaves (plain_problem problem.now)) }
    ensures few_leaves { IsErrOf result SiftError.TooManyTold → length (list_candidates (plain_problem problem.now)) ≤ limits.leaves }

    ensures told { IfOk result (λ found. plain_leaves (leaves_listed found.slabs.items) ≡ told_leaves (plain_problem problem.now)) }
    ensures counts { IfOk result (λ found. AreCounts (plain_problem problem.now) found.counts) }
    ensures touching { IfOk result (λ found. found.touching ≡ candidate_count (plain_problem problem.now)) }
    ensures within { IfOk result (λ found. found.counts.leaves ≤ limits.leaves) }
    ensures told_within { IfOk result (λ found. length (leaves_listed found.slabs.items) ≤ limits.told) }

    // Each leaf of the one-thread list is true at each of its ticks, each common tick of a candidate lies in a leaf of that pair, and they are
    // in order of pair and time; over each both its objects are in one piece.
    ensures sound { OnOk result (All (IsSound (plain_problem problem.now)) (list_candidates (plain_problem problem.now))) }
    ensures complete { OnOk result ((a b m : ℕ) → IsCommonOf (plain_problem problem.now) a b m
        → is_candidate (plain_problem problem.now) a b (slot_of problem.now.window.first.micros m) ≡ true
        → Any (IsTickOf a b m) (list_candidates (plain_problem problem.now))) }
    ensures ordered { OnOk result (AreInOrder (list_candidates (plain_problem problem.now))) }
    ensures pieces { OnOk result (All (λ s. KeepPieces (plain_problem problem.now) s.a s.b s.first s.last) (list_candidates (plain_problem problem.now))) }

    // What is no candidate is far.
    ensures far { OnOk result (OthersAreFar (plain_problem problem.now) (is_candidate (plain_problem problem.now))) }
{
    let few = few_kept(alloc, problem, measured)?;
    let sought = sought_among(problem, &few);
    let slots = all_slots(alloc, problem)?;
    let outcomes = sift_together(
        rt, alloc, gate, problem, measured, sought, &slots, workers, limits,
    )?;
    match joined_within(alloc, outcomes, limits)? {
        Some(found) => Ok(found),
        None => sift_alone(alloc, gate, problem, measured, sought, &slots, limits),
    }
}
