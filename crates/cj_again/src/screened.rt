ghost use Rattle.std.specs.Prelude.{◌≡◌};
ghost use Rattle.cj_case.specs.Leaves.{plain_leaves};
ghost use Rattle.cj_case.specs.Problems.{plain_problem};
ghost use Rattle.cj_cells.specs.Lists.{list_candidates};

use cj_case::{Leaf, Problem};

/// A problem with its leaves: its type keeps that they are the one-thread list.
#[derive(Debug, Drop)]
pub struct Screened {
    pub problem: Problem,
    pub leaves: Vec<Leaf>,
    pub ghost list: { plain_leaves leaves.items ≡ list_candidates (plain_problem problem) },
}

impl Screened {
    ghost use Rattle.cj_case.specs.Leaves.{plain_leaves};
    ghost use Rattle.cj_case.specs.Problems.{plain_problem};
    ghost use Rattle.cj_cells.specs.Lists.{list_candidates};

    /// A problem with its leaves.
    pub fn new(problem: Problem, leaves: Vec<Leaf>) -> Screened
        requires { plain_leaves leaves.items ≡ list_candidates (plain_problem problem) }
        ensures problem { result.problem ≡ problem }
        ensures leaves { result.leaves ≡ leaves }
    {
        Screened { problem, leaves }
    }
}
