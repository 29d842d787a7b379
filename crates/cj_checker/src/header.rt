//! What a certificate was made for.
ghost use Rattle.std.specs.Prelude.{◌≡◌};
ghost use Rattle.cj_case.specs.Problems.{plain_problem};
ghost use Rattle.cj_cert.specs.Certificates.{plain_certificate};
ghost use Rattle.cj_checker.specs.First.{header_failure as the_failure};

use crate::failure::{Failure, failed};
use cj_case::Problem;
use cj_cert::Certificate;
use cj_formats::CheckCause;

/// The line of the header with another window, threshold or number of objects than the problem's.
#[tactic(auto, unfolding(crate::specs::First::header_failure))]
pub fn header_failure(problem: &Problem, cert: &Certificate) -> Option<Failure>
    ensures { result ≡ the_failure (plain_problem problem.now) (plain_certificate cert.now) }
{
    if cert.window != problem.window {
        return failed(2, CheckCause::Header);
    }
    if cert.threshold != problem.threshold {
        return failed(3, CheckCause::Header);
    }
    if cert.objects as usize != problem.tracks.as_slice().len() {
        return failed(4, CheckCause::Header);
    }
    None
}
