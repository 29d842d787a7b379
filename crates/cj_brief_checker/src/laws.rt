//! What the first failure of a certificate in brief is: a law, which costs nothing to call.
ghost use Rattle.std.specs.Prelude.{◌≡◌, ◌↔◌, None};
ghost use Rattle.cj_case.specs.PlainProblems.{PlainProblem};
ghost use Rattle.cj_brief.specs.Accepted.{AcceptedInBrief};
ghost use Rattle.cj_brief.specs.Certificates.{PlainBrief};
ghost use Rattle.cj_brief_checker.specs.First.{first_failure_in_brief};

/// A certificate in brief has no first failure exactly where it is accepted.
pub fn acceptance_in_brief()
    ensures { (case : PlainProblem) (c : PlainBrief) → (first_failure_in_brief case c ≡ None) ↔ AcceptedInBrief case c }
{}
