//! A problem that is screened again after some of its objects have changed.
ghost use Rattle.std.specs.Prelude.{◌≡◌, ◌+◌, ◌<◌, ◌≤◌, length, vec_len, IfOk, IsErrOf};
ghost use Rattle.cj_base.specs.Bounds.{MOST_LEAVES};
ghost use Rattle.cj_case.specs.Leaves.{plain_leaves};
ghost use Rattle.cj_case.specs.Problems.{plain_problem};
ghost use Rattle.cj_cells.specs.Lists.{list_candidates, looks_anew};

use crate::carrying::carried;
use crate::changed::changed_roots;
use crate::objects_matched::match_objects;
use crate::screened::Screened;
use cj_candidates::roots_in_turn;
use cj_case::{Leaf, Problem};
use cj_cells::{RefineError, refine_all_once};
use cj_io::OpenGate;
use cj_steps::Steps;
use std::alloc::Global;
use std::sync::ledger::Ledger;

/// The leaves of a new problem, at most so many, from those of an old one.
fn leaves_again<L: Ledger>(
    alloc: Global,
    old: &Screened,
    new: &Problem,
    limit: u64,
    steps: &mut Steps<L>,
) -> Result<Vec<Leaf>, RefineError>
    requires first { new.now.window.first.micros ≡ old.now.problem.window.first.micros }
    requires last { new.now.window.last.micros ≡ old.now.problem.window.last.micros }
    requires threshold { new.now.threshold ≡ old.now.problem.threshold }
    requires limit { limit ≤ MOST_LEAVES }
    ensures value { IfOk result (λ leaves. plain_leaves leaves.items ≡ list_candidates (plain_problem new.now)) }
    ensures within { IfOk result (λ leaves. vec_len leaves ≤ limit) }
    ensures too_many { IsErrOf result RefineError.TooMany → limit < length (list_candidates (plain_problem new.now)) }
    ensures no_fewer { steps.old ≤ steps.new }
    ensures steps { steps.new ≤ steps.old + looks_anew (plain_problem old.now.problem) (plain_problem new.now) }
{
    let matching = match_objects(alloc, &old.problem, new)?;
    let roots = roots_in_turn(alloc, new, limit)?;
    let changed = changed_roots(alloc, &matching, &roots)?;
    let anew = refine_all_once(alloc, &OpenGate, new, &changed, limit, steps)?;
    carried(alloc, &matching, &old.leaves, &anew, limit)
}

/// A new problem screened, which has the window and the threshold of an old one: it refuses for memory, or exactly where there are more
/// leaves than the limit. Its leaves are those that it has by itself, and only cells of pairs that are not unchanged are looked at: a step is
/// one look.
pub fn again<L: Ledger>(
    alloc: Global,
    old: &Screened,
    new: Problem,
    limit: u64,
    steps: &mut Steps<L>,
) -> Result<Screened, RefineError>
    requires first { new.window.first.micros ≡ old.now.problem.window.first.micros }
    requires last { new.window.last.micros ≡ old.now.problem.window.last.micros }
    requires threshold { new.threshold ≡ old.now.problem.threshold }
    requires limit { limit ≤ MOST_LEAVES }
    ensures same { IfOk result (λ screened. screened.problem ≡ new) }
    ensures within { IfOk result (λ screened. vec_len screened.leaves ≤ limit) }
    ensures too_many { IsErrOf result RefineError.TooMany → limit < length (list_candidates (plain_problem new)) }
    ensures no_fewer { steps.old ≤ steps.new }
    ensures steps { steps.new ≤ steps.old + looks_anew (plain_problem old.now.problem) (plain_problem new) }
{
    let leaves = leaves_again(alloc, old, &new, limit, steps)?;
    Ok(Screened {
        problem: new,
        leaves,
    })
}
