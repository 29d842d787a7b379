//! What an accepted certificate in brief says, and that the one a run writes is accepted: laws, which cost next to nothing to call.
ghost use Rattle.cj_case.specs.Problems.{plain_problem};
ghost use Rattle.cj_brief.specs.Accepted.{AcceptedInBrief};
ghost use Rattle.cj_brief.specs.Splits.{BriefSplits};
ghost use Rattle.cj_brief.specs.Written.{written_in_brief};

use cj_case::Problem;
use cj_cert::acceptance;

/// The cells of a certificate in brief that is accepted for a problem split the common ticks, as those of one in full do.
pub fn acceptance_in_brief(problem: &Problem)
    ensures splits { BriefSplits (plain_problem problem.now) }

    // Exact shells, and the leaves of the roots that are not far throughout, make a certificate that is accepted.
    ensures written { AcceptedInBrief (plain_problem problem.now) (written_in_brief (plain_problem problem.now)) }
{
    acceptance(problem);
}
