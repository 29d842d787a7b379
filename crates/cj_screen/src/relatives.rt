//! What holds of the relative states of all encounters of a problem.
ghost use Rattle.std.specs.Prelude.{All};
ghost use Rattle.cj_case.specs.Problems.{plain_problem};
ghost use Rattle.cj_cells.specs.Lists.{IsSound, list_candidates};
ghost use Rattle.cj_meet.specs.Closest.{HasNearest};
ghost use Rattle.cj_outputs.specs.Outcome.{encounters_in};
ghost use Rattle.cj_screen.specs.Headline.{HasExactRelative};

use cj_case::Problem;
use cj_rtn::exactness;

/// The objects of an encounter are so near at its closest approach that their relative state is exact to one millimetre: it does nothing
/// else than to look at the tracks and the sizes.
pub(crate) fn exact_relatives(problem: &Problem)
    // Where leaves are sound, and the closest approach of each encounter is what it ought to be.
    ensures { All (IsSound (plain_problem problem.now)) (list_candidates (plain_problem problem.now))
        → All (HasNearest (plain_problem problem.now)) (encounters_in (plain_problem problem.now))
        → All (HasExactRelative (plain_problem problem.now)) (encounters_in (plain_problem problem.now)) }
{
    exactness(problem);
    let _sizes = problem.sizes.as_slice();
}
