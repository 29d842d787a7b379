//! What the first failure of a certificate is: a law, which costs nothing to call.
ghost use Rattle.std.specs.Prelude.{◌≡◌, ◌↔◌, None};
ghost use Rattle.cj_case.specs.PlainProblems.{PlainProblem};
ghost use Rattle.cj_cert.specs.Accepted.{Accepted};
ghost use Rattle.cj_cert.specs.Certificates.{PlainCertificate};
ghost use Rattle.cj_checker.specs.First.{first_failure};

/// A certificate has no first failure exactly where it is accepted.
pub fn acceptance()
    ensures { (case : PlainProblem) (c : PlainCertificate) → (first_failure case c ≡ None) ↔ Accepted case c }
{}
