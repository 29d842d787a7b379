//! That certificates of version 2 are accepted: laws, which cost next to nothing to call.
ghost use Rattle.cj_formats.specs.declared.cert_version.CertVersion.{CertVersion};
ghost use Rattle.cj_case.specs.Problems.{plain_problem};
ghost use Rattle.cj_cert.specs.Accepted.{Accepted};
ghost use Rattle.cj_cert.specs.Certificates.{PlainCertificate};
ghost use Rattle.cj_blocks.specs.Rewritten.{in_version_2, written_in};

use cj_case::Problem;
use cj_cert::acceptance;

/// What a run writes is accepted for its problem in either version, and what is accepted is accepted in version 2.
pub fn acceptance_in_blocks(problem: &Problem)
    ensures in_version { (version : CertVersion) → Accepted (plain_problem problem.now) (written_in version (plain_problem problem.now)) }
    ensures rewritten { (c : PlainCertificate) → Accepted (plain_problem problem.now) c → Accepted (plain_problem problem.now) (in_version_2 (plain_problem problem.now) c) }
{
    acceptance(problem);
}
