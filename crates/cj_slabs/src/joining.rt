//! What has come of slots, run by run, put together.
ghost use Rattle.std.specs.Prelude.{◌≡◌, ℕ, ◌+◌, ◌<◌, ◌≤◌, ◌++◌, true, false, List, min, length, IfOk, IfSome, OnOk, IsErrOf};
ghost use Rattle.std.specs.List.{list_all};
ghost use Rattle.cj_base.specs.Bounds.{MOST_LEAVES};
ghost use Rattle.cj_case.specs.PlainProblems.{PlainProblem};
ghost use Rattle.cj_bezier.specs.RootLeaves.{leaves_of_roots};
ghost use Rattle.cj_slabs.specs.Slabs.{AreOutcomes, AreSlabsOf, IsSlabOf, is_searched, least, least_of, leaves_listed, roots_at, told_by_outcome, told_by_outcomes, told_of_roots};

use crate::leaf_limits::LeafLimits;
use crate::sift_error::SiftError;
use crate::sifted::Sifted;
use crate::slab::{Outcome, Slab};
use std::alloc::{AllocError, Global};

/// How many leaves there are at least.
pub fn leaves_at_least(outcome: &Outcome) -> u64
    ensures { result ≡ least outcome.now }
{
    match outcome {
        Outcome::Whole(slab) => slab.counts.leaves,
        Outcome::Counted { leaves, .. } => *leaves,
        Outcome::Stopped { leaves } => *leaves,
    }
}

/// How many there are at least in all, or the greatest number that there is.
fn leaves_in(outcomes: &[Outcome]) -> u64
    ensures { result ≡ min (least_of outcomes.now) u64.MAX }
{
    let mut leaves = 0u64;
    for outcome in outcomes {
        leaves = leaves.saturating_add(leaves_at_least(outcome));
    }
    leaves
}

/// How many leaves are told, as far as is known.
fn told_by(outcome: &Outcome) -> u64
    ensures { result ≡ told_by_outcome outcome.now }
{
    match outcome {
        Outcome::Whole(slab) => slab.told.len() as u64,
        Outcome::Counted { told, .. } => *told,
        Outcome::Stopped { .. } => 0,
    }
}

/// Whether more are told in all than the limit, as far as is known.
fn are_more_told(outcomes: &[Outcome], limit: u64) -> bool
    ensures yes { result ≡ true → limit < told_by_outcomes outcomes.now }
    ensures no { result ≡ false → told_by_outcomes outcomes.now ≤ limit }
{
    let mut room = limit;
    for outcome in outcomes {
        let told = told_by(outcome);
        if told > room {
            return true;
        }
        room -= told;
    }
    false
}

/// Whether slots were searched to their end.
fn was_searched(outcome: &Outcome) -> bool
    ensures { result ≡ is_searched outcome.now }
{
    match outcome {
        Outcome::Whole(_) | Outcome::Counted { .. } => true,
        Outcome::Stopped { .. } => false,
    }
}

/// Whether all slots were searched to their end.
fn were_searched(outcomes: &[Outcome]) -> bool
    ensures { result ≡ list_all is_searched outcomes.now }
{
    outcomes.iter().all(|outcome| was_searched(outcome))
}

/// Puts a slab behind those that are found.
pub fn join(found: &mut Sifted, slab: Slab) -> Result<(), AllocError>
    requires { found.old.counts.leaves + slab.counts.leaves ≤ u64.MAX }
    ensures found { (case : PlainProblem) (some more : List ℕ) → AreSlabsOf case some found.old → IsSlabOf case more slab
        → OnOk result (AreSlabsOf case (some ++ more) found.new) }
    ensures leaves { OnOk result (found.new.counts.leaves ≡ found.old.counts.leaves + slab.counts.leaves) }
    ensures told { OnOk result (length (leaves_listed found.new.slabs.items) ≡ length (leaves_listed found.old.slabs.items) + length slab.told.items) }
{
    found.touching = found.touching.saturating_add(slab.touching);
    found.counts = found.counts.with(slab.counts);
    found.slabs.push(slab.told)?;
    Ok(())
}

/// All slabs, if what is told is kept of each.
fn joined(alloc: Global, outcomes: Vec<Outcome>) -> Result<Option<Sifted>, AllocError>
    requires { least_of outcomes.items ≤ u64.MAX }
    ensures slabs { (case : PlainProblem) (slots : List ℕ) → AreOutcomes case slots outcomes.items
        → IfOk result (λ found. IfSome found (AreSlabsOf case slots)) }
    ensures leaves { IfOk result (λ found. IfSome found (λ all. all.counts.leaves ≡ least_of outcomes.items)) }
    ensures told { IfOk result (λ found. IfSome found (λ all. length (leaves_listed all.slabs.items) ≡ told_by_outcomes outcomes.items)) }
{
    let mut found = Sifted::empty(alloc);
    for outcome in outcomes {
        match outcome {
            Outcome::Whole(slab) => join(&mut found, slab)?,
            Outcome::Counted { .. } => return Ok(None),
            Outcome::Stopped { .. } => return Ok(None),
        }
    }
    Ok(Some(found))
}

/// What is found in the slots from which these outcomes come; nothing where some were not searched to their end, or leaves were given up that
/// are no more than may be told.
pub fn joined_within(
    alloc: Global,
    outcomes: Vec<Outcome>,
    limits: LeafLimits,
) -> Result<Option<Sifted>, SiftError>
    requires { limits.leaves ≤ MOST_LEAVES }
    ensures too_many { (case : PlainProblem) (slots : List ℕ) → AreOutcomes case slots outcomes.items → IsErrOf result SiftError.TooMany
        → limits.leaves < length (leaves_of_roots case (roots_at case slots)) }
    ensures too_many_told { (case : PlainProblem) (slots : List ℕ) → AreOutcomes case slots outcomes.items → IsErrOf result SiftError.TooManyTold
        → limits.told < length (told_of_roots case (roots_at case slots)) }
    ensures few_leaves { (case : PlainProblem) (slots : List ℕ) → AreOutcomes case slots outcomes.items → IsErrOf result SiftError.TooManyTold
        → length (leaves_of_roots case (roots_at case slots)) ≤ limits.leaves }
    ensures slabs { (case : PlainProblem) (slots : List ℕ) → AreOutcomes case slots outcomes.items
        → IfOk result (λ found. IfSome found (AreSlabsOf case slots)) }
    ensures within { IfOk result (λ found. IfSome found (λ all. all.counts.leaves ≤ limits.leaves)) }
    ensures told_within { IfOk result (λ found. IfSome found (λ all. length (leaves_listed all.slabs.items) ≤ limits.told)) }
{
    let leaves = leaves_in(&outcomes);
    if leaves > limits.leaves {
        return Err(SiftError::TooMany);
    }
    if !were_searched(&outcomes) {
        return Ok(None);
    }
    if are_more_told(&outcomes, limits.told) {
        return Err(SiftError::TooManyTold);
    }
    let found = joined(alloc, outcomes)?;
    Ok(found)
}
