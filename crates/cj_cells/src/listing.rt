//! The one-thread list of a problem.
ghost use Rattle.std.specs.Prelude.{◌≡◌, ℕ, ◌+◌, ◌<◌, ◌≤◌, true, length, vec_len, All, Any, IfOk, OnOk, IsErrOf};
ghost use Rattle.cj_hermite.specs.ObjectsAtTicks.{IsCommonOf};
ghost use Rattle.cj_case.specs.Problems.{plain_problem};
ghost use Rattle.cj_case.specs.Slots.{slot_of};
ghost use Rattle.cj_case.specs.Leaves.{plain_leaves};
ghost use Rattle.cj_case.specs.Order.{AreInOrder};
ghost use Rattle.cj_bezier.specs.Candidates.{is_candidate};
ghost use Rattle.cj_hermite.specs.Roots.{KeepPieces, roots_of};
ghost use Rattle.cj_case.specs.Cells.{plain_cells};
ghost use Rattle.cj_bezier.specs.RootLeaves.{leaves_of_root, leaves_of_roots, Describe};
ghost use Rattle.cj_cells.specs.Lists.{list_candidates, looks_of_roots, splits_of, IsSound};
ghost use Rattle.cj_case.specs.Leaves.{IsTickOf};

use crate::refine_error::RefineError;
use crate::refining::refine_once;
use cj_case::{Cell, Leaf, Problem};
use cj_io::{Gate, Stage};
use cj_steps::Steps;
use std::alloc::Global;
use std::marker::Brand;
use std::sync::ledger::{Blank, Ledger};

/// The leaves of several roots, in order. The gate is told of each root, and each look at a part of one is a step.
pub fn refine_all_once<L: Ledger, G: Gate>(
    alloc: Global,
    gate: &G,
    problem: &Problem,
    roots: &[Cell],
    limit: u64,
    steps: &mut Steps<L>,
) -> Result<Vec<Leaf>, RefineError>
    requires { All (λ cell. KeepPieces (plain_problem problem.now) cell.pair.a cell.pair.b cell.first.micros cell.last.micros) roots.now }

    ensures value { IfOk result (λ leaves. plain_leaves leaves.items ≡ leaves_of_roots (plain_problem problem.now) (plain_cells roots.now)) }
    ensures within { IfOk result (λ leaves. vec_len leaves ≤ limit) }
    ensures too_many { IsErrOf result RefineError.TooMany → limit < length (leaves_of_roots (plain_problem problem.now) (plain_cells roots.now)) }

    // The leaves of each root lie in order in it, hold each of its ticks, and each is true at each of its own.
    ensures leaves { OnOk result (All (λ root. Describe (plain_problem problem.now) root (leaves_of_root (plain_problem problem.now) root)) (plain_cells roots.now)) }

    // A step for each leaf and one for each halving, and no more where it refuses.
    ensures no_fewer { steps.old ≤ steps.new }
    ensures steps { OnOk result (steps.new ≡ steps.old + looks_of_roots (plain_problem problem.now) (plain_cells roots.now)) }
    ensures few_steps { steps.new ≤ steps.old + looks_of_roots (plain_problem problem.now) (plain_cells roots.now) }
{
    let mut leaves = Vec::new(alloc);
    for root in roots {
        let before = leaves.len();
        refine_once(alloc, problem, *root, limit, &mut leaves, steps)?;
        tell(gate, leaves.len().saturating_sub(before) as u64);
    }
    Ok(leaves)
}

/// The same with steps of its own.
fn refine_all_counted<L: Ledger, G: Gate>(
    blank: Blank,
    alloc: Global,
    gate: &G,
    problem: &Problem,
    roots: &[Cell],
    limit: u64,
) -> Result<Vec<Leaf>, RefineError>
    requires name { blank.name ≡ L.name }
    requires parts { blank.parts ≡ L.parts }
    requires some { 0 < blank.parts }
    requires pieces { All (λ cell. KeepPieces (plain_problem problem.now) cell.pair.a cell.pair.b cell.first.micros cell.last.micros) roots.now }

    ensures value { IfOk result (λ leaves. plain_leaves leaves.items ≡ leaves_of_roots (plain_problem problem.now) (plain_cells roots.now)) }
    ensures within { IfOk result (λ leaves. vec_len leaves ≤ limit) }
    ensures too_many { IsErrOf result RefineError.TooMany → limit < length (leaves_of_roots (plain_problem problem.now) (plain_cells roots.now)) }

    // The leaves of each root lie in order in it, hold each of its ticks, and each is true at each of its own.
    ensures leaves { OnOk result (All (λ root. Describe (plain_problem problem.now) root (leaves_of_root (plain_problem problem.now) root)) (plain_cells roots.now)) }
{
    let mut steps = Steps::<L>::new(blank);
    refine_all_once(alloc, gate, problem, roots, limit, &mut steps)
}

/// The leaves of several roots, in order. The gate is told of each root.
pub fn refine_all<G: Gate>(
    alloc: Global,
    gate: &G,
    problem: &Problem,
    roots: &[Cell],
    limit: u64,
) -> Result<Vec<Leaf>, RefineError>
    requires { All (λ cell. KeepPieces (plain_problem problem.now) cell.pair.a cell.pair.b cell.first.micros cell.last.micros) roots.now }

    ensures value { IfOk result (λ leaves. plain_leaves leaves.items ≡ leaves_of_roots (plain_problem problem.now) (plain_cells roots.now)) }
    ensures within { IfOk result (λ leaves. vec_len leaves ≤ limit) }
    ensures too_many { IsErrOf result RefineError.TooMany → limit < length (leaves_of_roots (plain_problem problem.now) (plain_cells roots.now)) }

    // The leaves of each root lie in order in it, hold each of its ticks, and each is true at each of its own.
    ensures leaves { OnOk result (All (λ root. Describe (plain_problem problem.now) root (leaves_of_root (plain_problem problem.now) root)) (plain_cells roots.now)) }
{
    refine_all_counted::<Brand, G>(Blank::new(1), alloc, gate, problem, roots, limit)
}

/// Tells a gate of a root that is done. So many leaves take one halving less.
fn tell<G: Gate>(gate: &G, leaves: u64) {
    gate.looked(0, leaves.saturating_sub(1), leaves);
    gate.advance(Stage::Cells, 1);
}

/// The one-thread list, of the roots of the candidates of each slot.
pub fn leaves_of<G: Gate>(
    alloc: Global,
    gate: &G,
    problem: &Problem,
    roots: &[Cell],
    limit: u64,
) -> Result<Vec<Leaf>, RefineError>
    requires { plain_cells roots.now ≡ roots_of (is_candidate (plain_problem problem.now)) (plain_problem problem.now) }

    ensures value { IfOk result (λ leaves. plain_leaves leaves.items ≡ list_candidates (plain_problem problem.now)) }
    ensures within { IfOk result (λ leaves. vec_len leaves ≤ limit) }
    ensures too_many { IsErrOf result RefineError.TooMany → limit < length (list_candidates (plain_problem problem.now)) }

    // Each halving makes one leaf more.
    ensures splits { IfOk result (λ leaves. vec_len leaves ≡ length roots.now + splits_of (plain_problem problem.now)) }

    // Each leaf of the list is true at each of its ticks, each common tick of a candidate lies in a leaf of that
    // pair, and they are in order of pair and time.
    ensures sound { OnOk result (All (IsSound (plain_problem problem.now)) (list_candidates (plain_problem problem.now))) }
    ensures complete { OnOk result ((a b m : ℕ) → IsCommonOf (plain_problem problem.now) a b m → is_candidate (plain_problem problem.now) a b (slot_of problem.now.window.first.micros m) ≡ true
        → Any (IsTickOf a b m) (list_candidates (plain_problem problem.now))) }
    ensures ordered { OnOk result (AreInOrder (list_candidates (plain_problem problem.now))) }

    // Over each leaf both its objects are in one piece.
    ensures pieces { OnOk result (All (λ s. KeepPieces (plain_problem problem.now) s.a s.b s.first s.last) (list_candidates (plain_problem problem.now))) }
{
    refine_all(alloc, gate, problem, roots, limit)
}
