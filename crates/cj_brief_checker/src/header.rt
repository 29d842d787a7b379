//! What a certificate in brief was made for.
ghost use Rattle.std.specs.Prelude.{◌≡◌};
ghost use Rattle.cj_case.specs.Problems.{plain_problem};
ghost use Rattle.cj_brief.specs.Certificates.{plain_brief};
ghost use Rattle.cj_formats.specs.declared.check_cause.CheckCause.TheVariants.{Header};
ghost use Rattle.cj_checker.specs.First.{failed as a_failure, header_failure as the_failure};
ghost use Rattle.cj_brief_checker.specs.First.{in_full};

use cj_brief::BriefCertificate;
use cj_case::Problem;
use cj_checker::Failure;
use cj_formats::CheckCause;

/// A line of the header that fails.
fn failed(line: u32) -> Option<Failure>
    ensures { result ≡ a_failure line Header }
{
    Some(Failure {
        line,
        cause: CheckCause::Header,
    })
}

/// The line of the header with another window, threshold or number of objects than the problem's.
#[tactic(auto, unfolding(cj_checker::specs::First::header_failure))]
pub(crate) fn header_failure(problem: &Problem, cert: &BriefCertificate) -> Option<Failure>
    ensures { result ≡ the_failure (plain_problem problem.now) (in_full (plain_brief cert.now)) }
{
    if cert.window != problem.window {
        return failed(2);
    }
    if cert.threshold != problem.threshold {
        return failed(3);
    }
    if cert.objects as usize != problem.tracks.as_slice().len() {
        return failed(4);
    }
    None
}
