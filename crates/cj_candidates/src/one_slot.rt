//! The candidates of one slot.
ghost use Rattle.std.specs.Prelude.{◌≡◌, ◌<◌, map, IfOk};
ghost use Rattle.cj_case.specs.Pairs.{objects_of};
ghost use Rattle.cj_case.specs.Problems.{plain_problem};
ghost use Rattle.cj_case.specs.Slots.{slot_count};
ghost use Rattle.cj_bezier.specs.Candidates.{candidate_pairs};
ghost use Rattle.cj_bezier.specs.MeasuredObjects.{AreMeasured};
ghost use Rattle.cj_candidates.specs.SoughtPairs.{HoldCandidates, pairs_sought};

use crate::ground::Ground;
use crate::slots_searched::candidates_paired;
use crate::sought_pairs::Sought;
use cj_case::{Measured, Pair, Problem, slot_count};
use std::alloc::{AllocError, Global};

/// The candidates of a slot of a problem, whose objects are measured, in order, sought among pairs that hold them all.
pub fn candidates_in_slot(
    alloc: Global,
    problem: &Problem,
    measured: &Measured,
    sought: Sought<'_>,
    slot: u32,
) -> Result<Vec<Pair>, AllocError>
    requires measured { AreMeasured (plain_problem problem.now) measured.now }
    requires sought { HoldCandidates (plain_problem problem.now) (pairs_sought (plain_problem problem.now) sought) }
    requires exists { slot < slot_count problem.now.window.first.micros problem.now.window.last.micros }
    ensures { IfOk result (λ pairs. map objects_of pairs.items ≡ candidate_pairs (plain_problem problem.now) slot) }
{
    let ground = Ground {
        problem,
        measured,
        slots: slot_count(problem.window),
        sought,
    };
    candidates_paired(alloc, &ground, slot)
}
