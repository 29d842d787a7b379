//! The checker.
ghost use Rattle.std.specs.Prelude.{◌≡◌, ◌↔◌, ◌+◌, ◌-◌, ◌^◌, ◌<◌, IfOk};
ghost use Rattle.std.specs.Option.{option_or};
ghost use Rattle.cj_case.specs.Problems.{plain_problem};
ghost use Rattle.cj_cert.specs.Accepted.{Accepted};
ghost use Rattle.cj_cert.specs.Certificates.{line_count, plain_certificate};
ghost use Rattle.cj_cert.specs.Splits.{AcceptedSplits};
ghost use Rattle.cj_checker.specs.Answers.{failure_of};
ghost use Rattle.cj_checker.specs.First as first;

use crate::answer::Answer;
use crate::cells::cell_failure;
use crate::failure::Failure;
use crate::header::header_failure;
use crate::shells::hull_failure;
use crate::sizes::size_failure;
use cj_case::Problem;
use cj_cert::{Certificate, acceptance};
use std::alloc::{AllocError, Global};
use std::thread::Threads;

/// The first failure of what is said of the run and of each object.
fn object_failure<R: Threads + Sync>(
    rt: &R,
    alloc: Global,
    problem: &Problem,
    cert: &Certificate,
    workers: u32,
) -> Result<Option<Failure>, AllocError>
    requires few { line_count (plain_certificate cert.now) < 2 ^ 32 - 5 }
    ensures { IfOk result (λ found. found ≡ option_or (first.header_failure (plain_problem problem.now) (plain_certificate cert.now))
        (option_or (first.size_failure (plain_problem problem.now) (plain_certificate cert.now))
        (option_or (first.shell_failure (plain_problem problem.now) (plain_certificate cert.now))
        (first.box_failure (plain_problem problem.now) (plain_certificate cert.now))))) }
{
    let header = header_failure(problem, cert);
    if header.is_some() {
        return Ok(header);
    }
    let size = size_failure(problem, cert);
    if size.is_some() {
        return Ok(size);
    }
    hull_failure(rt, alloc, problem, cert, workers)
}

/// The first failure of a certificate.
fn first_failure<R: Threads + Sync>(
    rt: &R,
    alloc: Global,
    problem: &Problem,
    cert: &Certificate,
    workers: u32,
) -> Result<Option<Failure>, AllocError>
    requires few { line_count (plain_certificate cert.now) < 2 ^ 32 - 5 }
    ensures { IfOk result (λ found. found ≡ first.first_failure (plain_problem problem.now) (plain_certificate cert.now)) }
{
    let found = object_failure(rt, alloc, problem, cert, workers)?;
    if found.is_some() {
        return Ok(found);
    }
    cell_failure(rt, alloc, problem, cert, workers)
}

fn answer_of(found: Option<Failure>) -> Answer
    ensures { failure_of result ≡ found }
{
    match found {
        None => Answer::Accepted,
        Some(Failure { line, cause }) => Answer::Refused { line, cause },
    }
}

/// Whether a certificate is accepted for a problem, or else the first line at which it is not, and why, by as many threads as there are
/// workers. It rests on no work of the run that wrote the certificate: each shell, box and cell is compared with the hulls of the tracks.
pub fn check<R: Threads + Sync>(
    rt: &R,
    alloc: Global,
    problem: &Problem,
    cert: &Certificate,
    workers: u32,
) -> Result<Answer, AllocError>
    requires few { line_count (plain_certificate cert.now) < 2 ^ 32 - 5 }

    // The line and the cause are the first ones, and there are none exactly where it is accepted.
    ensures value { IfOk result (λ answer. failure_of answer ≡ first.first_failure (plain_problem problem.now) (plain_certificate cert.now)) }
    ensures exact { IfOk result (λ answer. (answer ≡ Answer.Accepted) ↔ Accepted (plain_problem problem.now) (plain_certificate cert.now)) }

    // The cells of whatever certificate is accepted for the problem split all its common ticks.
    ensures law { AcceptedSplits (plain_problem problem.now) }
{
    acceptance(problem);
    let found = first_failure(rt, alloc, problem, cert, workers)?;
    Ok(answer_of(found))
}
