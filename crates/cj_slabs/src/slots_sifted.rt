//! Some slots, one after another, until threads that search others beside are to stop.
ghost use Rattle.std.specs.Prelude.{◌≡◌, ℕ, ◌+◌, ◌<◌, ◌≤◌, true, false, List, None, All, IfOk, OnOk, IsErrOf, length, map};
ghost use Rattle.cj_base.specs.Bounds.{MOST_LEAVES};
ghost use Rattle.cj_case.specs.Pairs.{objects_of};
ghost use Rattle.cj_case.specs.PlainProblems.{PlainProblem};
ghost use Rattle.cj_case.specs.Problems.{plain_problem};
ghost use Rattle.cj_case.specs.Slots.{slot_count};
ghost use Rattle.cj_bezier.specs.MeasuredObjects.{AreMeasured};
ghost use Rattle.cj_bezier.specs.RootLeaves.{leaves_of_roots};
ghost use Rattle.cj_hermite.specs.Roots.{roots_in_slot};
ghost use Rattle.cj_candidates.specs.SoughtPairs.{HoldCandidates, pairs_sought};
ghost use Rattle.cj_slabs.specs.Slabs.{AddRoots, AddSlot, IsOutcome, IsSlabOf, IsWithinOrOver, roots_at, slot_roots};

use crate::halt::Halt;
use crate::leaf_limits::LeafLimits;
use crate::roots_sifted::sift_pairs;
use crate::scratch::Scratch;
use crate::slab::{Outcome, Slab};
use crate::together::Together;
use cj_candidates::{Sought, candidates_in_slot, is_crowded};
use cj_case::{Measured, Pair, Problem};
use cj_io::{Gate, Stage};
use std::alloc::{AllocError, Global};

/// Whether threads that search together are to stop. One that searches alone never is.
fn is_over(together: Option<&Together>, limit: u64) -> bool
    ensures { together.entry ≡ None → result ≡ false }
{
    match together {
        Some(together) => together.is_over(limit),
        None => false,
    }
}

/// Whether a thread may go on to a slot. One that searches alone always may.
fn may_begin(together: Option<&Together>, limit: u64, is_crowded: bool) -> bool
    ensures { together.entry ≡ None → result ≡ true }
{
    match together {
        Some(together) => together.begin(limit, is_crowded),
        None => true,
    }
}

/// Tells the others that a thread is through with a slot.
fn end(together: Option<&Together>, is_crowded: bool) {
    if let Some(together) = together {
        together.end(is_crowded);
    }
}

/// So many pairs have their roots sifted at once.
const PAIRS_AT_ONCE: usize = 64;

/// Pairs of existing objects in a slot, some at a time.
fn sift_until_stopped(
    alloc: Global,
    problem: &Problem,
    slot: u32,
    pairs: &[Pair],
    limit: u64,
    together: Option<&Together>,
    scratch: &mut Scratch<'_>,
    slab: &mut Slab,
) -> Result<(), Halt>
    requires exist { All (λ pair. pair.b < length problem.now.tracks) pairs.now }
    requires cuts { scratch.old.cuts ≡ problem.now }
    requires room { slab.old.counts.leaves ≤ limit }
    ensures cuts { scratch.new.cuts ≡ scratch.old.cuts }
    ensures added { OnOk result (AddRoots (plain_problem problem.now)
        (roots_in_slot (plain_problem problem.now) slot (map objects_of pairs.now)) slab.old slab.new) }
    ensures within { OnOk result (slab.new.counts.leaves ≤ limit) }
    ensures too_many { IsErrOf result Halt.TooMany → limit < slab.old.counts.leaves
        + length (leaves_of_roots (plain_problem problem.now) (roots_in_slot (plain_problem problem.now) slot (map objects_of pairs.now))) }
    ensures stopped { IsErrOf result Halt.Stopped → slab.new.counts.leaves ≤ slab.old.counts.leaves
        + length (leaves_of_roots (plain_problem problem.now) (roots_in_slot (plain_problem problem.now) slot (map objects_of pairs.now))) }
    ensures alone { together.entry ≡ None → IsErrOf result Halt.Stopped → ⊥ }
{
    let mut rest = pairs;
    while !rest.is_empty() {
        if is_over(together, limit) {
            return Err(Halt::Stopped);
        }
        let (some, others) = rest.split_at(rest.len().min(PAIRS_AT_ONCE));
        let before = slab.counts.leaves;
        sift_pairs(alloc, problem, slot, some, limit, scratch, slab)?;
        tell(together, slab.counts.leaves.saturating_sub(before));
        rest = others;
    }
    Ok(())
}

/// Tells the others of leaves that are found.
fn tell(together: Option<&Together>, leaves: u64) {
    if let Some(together) = together {
        together.add(leaves);
    }
}

/// A slot. No two threads are at crowded slots at once.
fn sift_slot(
    alloc: Global,
    problem: &Problem,
    measured: &Measured,
    sought: Sought<'_>,
    slot: u32,
    limit: u64,
    together: Option<&Together>,
    scratch: &mut Scratch<'_>,
    slab: &mut Slab,
) -> Result<(), Halt>
    requires measured { AreMeasured (plain_problem problem.now) measured.now }
    requires sought { HoldCandidates (plain_problem problem.now) (pairs_sought (plain_problem problem.now) sought) }
    requires exists { slot < slot_count problem.now.window.first.micros problem.now.window.last.micros }
    requires cuts { scratch.old.cuts ≡ problem.now }
    requires room { slab.old.counts.leaves ≤ limit }
    ensures cuts { scratch.new.cuts ≡ scratch.old.cuts }
    ensures added { OnOk result (AddSlot (plain_problem problem.now) slot slab.old slab.new) }
    ensures within { OnOk result (slab.new.counts.leaves ≤ limit) }
    ensures too_many { IsErrOf result Halt.TooMany → limit < slab.old.counts.leaves
        + length (leaves_of_roots (plain_problem problem.now) (slot_roots (plain_problem problem.now) slot)) }
    ensures stopped { IsErrOf result Halt.Stopped → slab.new.counts.leaves ≤ slab.old.counts.leaves
        + length (leaves_of_roots (plain_problem problem.now) (slot_roots (plain_problem problem.now) slot)) }
    ensures alone { together.entry ≡ None → IsErrOf result Halt.Stopped → ⊥ }
{
    let crowded = is_crowded(measured, slot);
    if !may_begin(together, limit, crowded) {
        return Err(Halt::Stopped);
    }
    let pairs = candidates_in_slot(alloc, problem, measured, sought, slot)?;
    slab.touching = slab.touching.saturating_add(pairs.len() as u64);
    let sifted = sift_until_stopped(alloc, problem, slot, &pairs, limit, together, scratch, slab);
    end(together, crowded);
    sifted
}

/// Whether so many leaves more that are told are more than may be, with those of all threads. A thread that searches alone has no others.
fn are_too_many(together: Option<&Together>, told: u64, limit: u64) -> bool
    ensures yes { together.entry ≡ None → result ≡ true → limit < told }
    ensures no { together.entry ≡ None → result ≡ false → told ≤ limit }
{
    match together {
        Some(together) => together.tell(told, limit),
        None => told > limit,
    }
}

/// What has come of slots that are searched to their end. What is told is given up where it is more than may be.
fn searched(mut slab: Slab, limits: LeafLimits, together: Option<&Together>) -> Outcome
    requires { slab.counts.leaves ≤ limits.leaves }
    ensures outcome { (case : PlainProblem) (slots : List ℕ) → IsSlabOf case slots slab → IsOutcome case slots result }
    ensures over { together.entry ≡ None → IsWithinOrOver limits result }
{
    let told = slab.told.len() as u64;
    if are_too_many(together, told, limits.told) {
        return Outcome::Counted {
            leaves: slab.counts.leaves,
            told,
        };
    }
    slab.told.shrink_to_fit();
    Outcome::Whole(slab)
}

/// What has come of slots whose search was halted when so many leaves were found.
fn halted(halt: Halt, limits: LeafLimits, leaves: u64) -> Result<Outcome, AllocError>
    requires { limits.leaves ≤ MOST_LEAVES }
    ensures outcome { (case : PlainProblem) (slots : List ℕ) → (halt ≡ Halt.TooMany → limits.leaves < length (leaves_of_roots case (roots_at case slots)))
        → (halt ≡ Halt.Stopped → leaves ≤ length (leaves_of_roots case (roots_at case slots))) → IfOk result (IsOutcome case slots) }
    ensures over { (halt ≡ Halt.Stopped → ⊥) → IfOk result (IsWithinOrOver limits) }
{
    match halt {
        Halt::Memory => Err(AllocError),
        Halt::TooMany => Ok(Outcome::Stopped {
            leaves: limits.leaves + 1,
        }),
        Halt::Stopped => Ok(Outcome::Stopped { leaves }),
    }
}

/// Some slots, one after another. The gate is told of each.
pub fn sift_some<G: Gate>(
    alloc: Global,
    gate: &G,
    problem: &Problem,
    measured: &Measured,
    sought: Sought<'_>,
    slots: &[u32],
    limits: LeafLimits,
    together: Option<&Together>,
) -> Result<Outcome, AllocError>
    requires measured { AreMeasured (plain_problem problem.now) measured.now }
    requires sought { HoldCandidates (plain_problem problem.now) (pairs_sought (plain_problem problem.now) sought) }
    requires exist { All (λ slot. slot < slot_count problem.now.window.first.micros problem.now.window.last.micros) slots.now }
    requires limit { limits.leaves ≤ MOST_LEAVES }
    ensures outcome { IfOk result (IsOutcome (plain_problem problem.now) slots.now) }
    ensures alone { together.entry ≡ None → IfOk result (IsWithinOrOver limits) }
{
    let mut scratch = Scratch::new(alloc, problem)?;
    let mut slab = Slab::empty(alloc);
    for slot in slots {
        match sift_slot(
            alloc,
            problem,
            measured,
            sought,
            *slot,
            limits.leaves,
            together,
            &mut scratch,
            &mut slab,
        ) {
            Ok(()) => gate.advance(Stage::Minutes, 1),
            Err(halt) => return halted(halt, limits, slab.counts.leaves),
        }
    }
    Ok(searched(slab, limits, together))
}
