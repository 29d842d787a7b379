ghost use Rattle.std.specs.Prelude.{◌≡◌};
ghost use Rattle.cj_case.specs.Leaves.{plain_leaves};
ghost use Rattle.cj_case.specs.Problems.{plain_problem};
ghost use Rattle.cj_bezier.specs.Candidates.{is_candidate_anew};
ghost use Rattle.cj_cells.specs.Lists.{list_candidates, list_of};

use crate::matching::Matching;
use cj_case::Leaf;

/// What the leaves of a new problem are put together from, which has the window and the threshold of the old one.
#[derive(Clone, Copy)]
pub struct Sources<'s> {
    pub matching: &'s Matching<'s>,
    /// The leaves of the old problem.
    pub old: &'s [Leaf],
    /// Those of the new one whose pairs are not unchanged.
    pub anew: &'s [Leaf],
    pub ghost first: { matching.now.new.now.window.first.micros ≡ matching.now.old.now.window.first.micros },
    pub ghost last: { matching.now.new.now.window.last.micros ≡ matching.now.old.now.window.last.micros },
    pub ghost threshold: { matching.now.new.now.threshold ≡ matching.now.old.now.threshold },
    pub ghost in_old: { plain_leaves old.now ≡ list_candidates (plain_problem matching.now.old.now) },
    pub ghost in_anew: { plain_leaves anew.now
        ≡ list_of (is_candidate_anew (plain_problem matching.now.old.now) (plain_problem matching.now.new.now)) (plain_problem matching.now.new.now) },
}
