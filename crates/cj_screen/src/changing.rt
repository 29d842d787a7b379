//! From a problem before updates and the one after them to what is found of the pairs that are not unchanged.
ghost use Rattle.std.specs.Prelude.{◌≡◌, ◌≢◌, ◌<◌, ◌≤◌, Err, All, IfOk, IfErr, IsErrOf, OnOk, length};
ghost use Rattle.cj_case.specs.Leaves.{plain_leaves};
ghost use Rattle.cj_case.specs.Problems.{plain_problem};
ghost use Rattle.cj_meet.specs.Closest.{HasNearest};
ghost use Rattle.cj_meet.specs.Encounters.{encounters_of};
ghost use Rattle.cj_outputs.specs.Changes.{AreChanges, changed_outputs_in};
ghost use Rattle.cj_outputs.specs.Outcome.{within_cells};
ghost use Rattle.cj_outputs.specs.Outcome as spec;
ghost use Rattle.cj_outputs.specs.SpanSplits.{SplitsChangedTicks, StillSo};
ghost use Rattle.cj_screen.specs.Refining.{HoldsChangedTicks};
ghost use Rattle.cj_status.specs.Steps.{Gives, ComesBetween};

use crate::refining::refused;
use cj_again::{changed_pairs, kept_unchanged, match_objects};
use cj_candidates::{find_wanted, measure_all};
use cj_case::{Leaf, Problem};
use cj_cells::RefineError;
use cj_inputs::Updating;
use cj_io::Gate;
use cj_outputs::{Changes, Wanted, find_meetings};
use cj_pool::{leaves_of_list, true_lists};
use cj_status::Status;
use std::alloc::Global;
use std::sync::Wait;
use std::thread::Threads;

/// The leaves of the pairs that are not unchanged.
#[derive(Drop)]
pub struct ChangedLeaves {
    pub leaves: Vec<Leaf>,
    /// How many of the other pairs are kept.
    pub kept: u64,
}

/// What is found of the pairs of a problem after updates that are not unchanged, where these have at most as many leaves as are wanted. The problem
/// before the updates is not screened.
#[tactic(auto, unfolding(cj_outputs::specs::Outcome::outputs_changed))]
pub fn screen_changes<R: Threads + Wait + Sync, G: Gate + Sync>(
    rt: &R,
    alloc: Global,
    gate: &G,
    updating: Updating,
    wanted: Wanted,
) -> Result<Changes, Status>
    ensures between { IfErr result ComesBetween }
    ensures read { result ≢ Err Status.ReadFault }
    ensures told { Gives ⊥ changed_outputs_in result
        (spec.outputs_changed wanted.leaves wanted.tells (plain_problem updating.base) (plain_problem updating.new)) }
    ensures found { IfOk result AreChanges }
    ensures split { OnOk result (SplitsChangedTicks (plain_problem updating.base) (plain_problem updating.new)
        (encounters_of (spec.list_anew (plain_problem updating.base) (plain_problem updating.new)))) }
    ensures nearest { OnOk result (All (HasNearest (plain_problem updating.new))
        (encounters_of (spec.list_anew (plain_problem updating.base) (plain_problem updating.new)))) }
    ensures still_so { StillSo (plain_problem updating.base) (plain_problem updating.new) }
{
    let Updating { base, new } = updating;
    let changed = refine_changed(rt, alloc, gate, &base, &new, wanted)?;
    drop(base);
    let met = find_meetings(rt, alloc, gate, &new, &changed.leaves, wanted.workers)?;
    Ok(Changes {
        problem: new,
        tells: wanted.tells,
        leaves: changed.leaves,
        met,
        kept: changed.kept,
    })
}

/// The leaves of these pairs, where there are at most as many as are wanted.
fn refine_changed<R: Threads + Wait + Sync, G: Gate + Sync>(
    rt: &R,
    alloc: Global,
    gate: &G,
    base: &Problem,
    new: &Problem,
    wanted: Wanted,
) -> Result<ChangedLeaves, Status>
    ensures between { IfErr result ComesBetween }
    ensures told { Gives ⊥ (λ changed. plain_leaves changed.leaves.items) result
        (within_cells wanted.leaves (spec.list_anew (plain_problem base.now) (plain_problem new.now))) }
    ensures value { IfOk result (λ changed. plain_leaves changed.leaves.items ≡ spec.list_anew (plain_problem base.now) (plain_problem new.now)) }
    ensures few { IfOk result (λ changed. length changed.leaves.items ≤ wanted.leaves) }
    ensures kept { IfOk result (λ changed. changed.kept ≡ spec.kept_unchanged (plain_problem base.now) (plain_problem new.now)) }
    ensures ticks { OnOk result (HoldsChangedTicks (plain_problem base.now) (plain_problem new.now)) }
{
    match find_changed(rt, alloc, gate, base, new, wanted) {
        Ok(changed) => Ok(changed),
        Err(error) => Err(refused(error, wanted.leaves)),
    }
}

/// The same, or why there are none.
fn find_changed<R: Threads + Wait + Sync, G: Gate + Sync>(
    rt: &R,
    alloc: Global,
    gate: &G,
    base: &Problem,
    new: &Problem,
    wanted: Wanted,
) -> Result<ChangedLeaves, RefineError>
    ensures value { IfOk result (λ changed. plain_leaves changed.leaves.items ≡ spec.list_anew (plain_problem base.now) (plain_problem new.now)) }
    ensures within { IfOk result (λ changed. length changed.leaves.items ≤ wanted.leaves) }
    ensures too_many { IsErrOf result RefineError.TooMany → wanted.leaves < length (spec.list_anew (plain_problem base.now) (plain_problem new.now)) }
    ensures kept { IfOk result (λ changed. changed.kept ≡ spec.kept_unchanged (plain_problem base.now) (plain_problem new.now)) }
    ensures ticks { OnOk result (HoldsChangedTicks (plain_problem base.now) (plain_problem new.now)) }
{
    true_lists(new);
    let matching = match_objects(alloc, base, new)?;
    let measured = measure_all(rt, alloc, gate, new, wanted.workers)?;
    let kept = kept_unchanged(&matching, &measured.shells);
    let pairs = changed_pairs(alloc, &matching)?;
    let roots = find_wanted(
        rt,
        alloc,
        gate,
        new,
        &measured,
        &pairs,
        wanted.workers,
        wanted.leaves,
    )?;
    drop(measured);
    drop(pairs);
    let leaves = leaves_of_list(rt, alloc, gate, new, roots, wanted.workers, wanted.leaves)?;
    Ok(ChangedLeaves { leaves, kept })
}
