//! The one-thread list of a problem, by several hands.
ghost use Rattle.std.specs.Prelude.{◌≡◌, ℕ, ◌+◌, ◌<◌, ◌≤◌, true, length, vec_len, All, Any, IfOk, OnOk, IsErrOf};
ghost use Rattle.std.specs.List.{range_with_len};
ghost use Rattle.cj_base.specs.Bounds.{MOST_LEAVES};
ghost use Rattle.cj_hermite.specs.ObjectsAtTicks.{IsCommonOf};
ghost use Rattle.cj_case.specs.Problems.{plain_problem};
ghost use Rattle.cj_hermite.specs.Roots.{KeepPieces, roots_of};
ghost use Rattle.cj_case.specs.Slots.{slot_of};
ghost use Rattle.cj_case.specs.Cells.{plain_cells};
ghost use Rattle.cj_case.specs.Leaves.{plain_leaves, IsTickOf};
ghost use Rattle.cj_bezier.specs.Candidates.{is_candidate};
ghost use Rattle.cj_case.specs.Order.{AreInOrder};
ghost use Rattle.cj_bezier.specs.RootLeaves.{leaves_of_root, leaves_of_roots, Describe};
ghost use Rattle.cj_cells.specs.Cells.{root_numbers};
ghost use Rattle.cj_cells.specs.Lists.{list_candidates, splits_of, IsSound};
ghost use Rattle.cj_pool.specs.declared.refined.FinishError.TheVariants.{Memory, TooMany};
ghost use Rattle.cj_pool.specs.RootLists.{AreRoots};

use crate::crew::run_hands;
use crate::refined::FinishError;
use crate::refinery::Refinery;
use crate::run::Run;
use cj_case::{Cell, Leaf, Problem};
use cj_cells::{RefineError, refine_all};
use cj_io::{Gate, Stage};
use std::alloc::Global;
use std::marker::Brand;
use std::sync::Wait;
use std::thread::Threads;

/// Why the list is refused, where the leaves of its refinery are.
fn refused(error: FinishError) -> RefineError
    ensures memory { error ≡ Memory → result ≡ RefineError.Memory }
    ensures too_many { result ≡ RefineError.TooMany → (limit : ℕ) × (error ≡ TooMany limit) }
{
    match error {
        FinishError::Memory => RefineError::Memory,
        FinishError::TooMany { limit: _ } => RefineError::TooMany,
    }
}

/// The leaves of roots in order, by so many hands on threads.
pub fn leaves_by_hands<K: Run + Send + Sync, R: Threads + Wait + Sync, G: Gate + Sync>(
    rt: &R,
    alloc: Global,
    gate: &G,
    problem: &Problem,
    roots: Vec<Cell>,
    workers: u32,
    limit: u64,
) -> Result<Vec<Leaf>, RefineError>
    requires problem { problem.now ≡ K.problem }
    requires roots { roots.items ≡ K.roots }
    requires workers { workers ≡ K.workers }
    requires are_roots { AreRoots (plain_problem problem.now) roots.items }
    requires some { 1 ≤ workers }
    requires few_workers { workers ≤ 16 }
    requires few_roots { length roots.items ≤ limit }
    requires few_leaves { limit ≤ MOST_LEAVES }

    ensures value { IfOk result (λ leaves. plain_leaves leaves.items ≡ leaves_of_roots (plain_problem problem.now) (plain_cells roots.items)) }
    ensures within { IfOk result (λ leaves. vec_len leaves ≤ limit) }
    ensures too_many { IsErrOf result RefineError.TooMany → limit < length (leaves_of_roots (plain_problem problem.now) (plain_cells roots.items)) }
    ensures leaves { OnOk result (All
        (λ root. Describe (plain_problem problem.now) root (leaves_of_root (plain_problem problem.now) root)) (plain_cells roots.items)) }
{
    let (refinery, hands) = Refinery::<K>::new(rt, alloc, problem, roots, workers, limit)?;
    let hands = run_hands(rt, alloc, &refinery, gate, hands)?;
    match refinery.finish(rt, alloc, hands) {
        Ok(refined) => Ok(refined.leaves),
        Err(error) => Err(refused(error)),
    }
}

/// The leaves of roots in order, by so many workers. Each of several workers calls the gate before each of its turns. One worker takes no turns: it
/// halves the roots one after another, and enters no gate.
pub fn leaves_of_list<R: Threads + Wait + Sync, G: Gate + Sync>(
    rt: &R,
    alloc: Global,
    gate: &G,
    problem: &Problem,
    roots: Vec<Cell>,
    workers: u32,
    limit: u64,
) -> Result<Vec<Leaf>, RefineError>
    requires roots { AreRoots (plain_problem problem.now) roots.items }
    requires few { vec_len roots ≤ limit }
    requires limit { limit ≤ MOST_LEAVES }
    requires some { 1 ≤ workers }
    requires few_workers { workers ≤ 16 }

    ensures value { IfOk result (λ leaves. plain_leaves leaves.items ≡ leaves_of_roots (plain_problem problem.now) (plain_cells roots.items)) }
    ensures within { IfOk result (λ leaves. vec_len leaves ≤ limit) }
    ensures too_many { IsErrOf result RefineError.TooMany → limit < length (leaves_of_roots (plain_problem problem.now) (plain_cells roots.items)) }
    ensures leaves { OnOk result (All
        (λ root. Describe (plain_problem problem.now) root (leaves_of_root (plain_problem problem.now) root)) (plain_cells roots.items)) }
{
    gate.begin(Stage::Cells, roots.len() as u64);
    if workers == 1 {
        return refine_all(alloc, gate, problem, &roots, limit);
    }
    leaves_by_hands::<Brand, R, G>(rt, alloc, gate, problem, roots, workers, limit)
}

/// The one-thread list, by so many workers, of the roots of the candidates of each slot, each with its place as its
/// number.
pub fn leaves_by_workers<R: Threads + Wait + Sync, G: Gate + Sync>(
    rt: &R,
    alloc: Global,
    gate: &G,
    problem: &Problem,
    roots: Vec<Cell>,
    workers: u32,
    limit: u64,
) -> Result<Vec<Leaf>, RefineError>
    requires few { vec_len roots ≤ limit }
    requires limit { limit ≤ MOST_LEAVES }
    requires some { 1 ≤ workers }
    requires few_workers { workers ≤ 16 }
    requires found { plain_cells roots.items ≡ roots_of (is_candidate (plain_problem problem.now)) (plain_problem problem.now) }
    requires numbered { root_numbers roots.items ≡ range_with_len 0 (vec_len roots) }

    ensures value { IfOk result (λ leaves. plain_leaves leaves.items ≡ list_candidates (plain_problem problem.now)) }
    ensures within { IfOk result (λ leaves. vec_len leaves ≤ limit) }
    ensures too_many { IsErrOf result RefineError.TooMany → limit < length (list_candidates (plain_problem problem.now)) }

    // Each halving makes one leaf more.
    ensures splits { IfOk result (λ leaves. vec_len leaves ≡ vec_len roots + splits_of (plain_problem problem.now)) }

    // Each leaf of the list is true at each of its ticks, each common tick of a candidate lies in a leaf of that
    // pair, and they are in order of pair and time.
    ensures sound { OnOk result (All (IsSound (plain_problem problem.now)) (list_candidates (plain_problem problem.now))) }
    ensures complete { OnOk result ((a b m : ℕ) → IsCommonOf (plain_problem problem.now) a b m
        → is_candidate (plain_problem problem.now) a b (slot_of problem.now.window.first.micros m) ≡ true
        → Any (IsTickOf a b m) (list_candidates (plain_problem problem.now))) }
    ensures ordered { OnOk result (AreInOrder (list_candidates (plain_problem problem.now))) }

    // Over each leaf both its objects are in one piece.
    ensures pieces { OnOk result (All
        (λ s. KeepPieces (plain_problem problem.now) s.a s.b s.first s.last) (list_candidates (plain_problem problem.now))) }
{
    leaves_of_list(rt, alloc, gate, problem, roots, workers, limit)
}
