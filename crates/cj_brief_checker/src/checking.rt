//! The checker.
ghost use Rattle.std.specs.Prelude.{◌≡◌, ◌↔◌, ◌-◌, ◌^◌, ◌<◌, IfOk};
ghost use Rattle.std.specs.Option.{option_or};
ghost use Rattle.cj_case.specs.Problems.{plain_problem};
ghost use Rattle.cj_brief.specs.Accepted.{AcceptedInBrief};
ghost use Rattle.cj_brief.specs.Certificates.{line_count, plain_brief};
ghost use Rattle.cj_brief.specs.Splits.{BriefSplits};
ghost use Rattle.cj_checker.specs.Answers.{failure_of};
ghost use Rattle.cj_checker.specs.First as first;
ghost use Rattle.cj_brief_checker.specs.First.{first_failure_in_brief, head_failure_in_brief, in_full};

use crate::cells::cell_failure;
use crate::header::header_failure;
use crate::primaries::unfit_primary;
use crate::showing::show;
use crate::shown::Shown;
use cj_brief::{BriefCertificate, acceptance_in_brief, primary_lines};
use cj_case::Problem;
use cj_checker::{Answer, Failure, unfit_size};
use std::alloc::{AllocError, Global};
use std::thread::Threads;

/// The first failure of what is said of the run and of the sizes.
fn size_failure(problem: &Problem, cert: &BriefCertificate) -> Option<Failure>
    requires few { line_count (plain_brief cert.now) < 2 ^ 32 - 5 }
    ensures { result ≡ option_or (first.header_failure (plain_problem problem.now) (in_full (plain_brief cert.now)))
        (first.size_failure (plain_problem problem.now) (in_full (plain_brief cert.now))) }
{
    let header = header_failure(problem, cert);
    if header.is_some() {
        return header;
    }
    unfit_size(problem.sizes.as_slice(), &cert.sizes)
}

/// The first failure of what is said of the run, of the sizes and of the primaries.
fn head_failure(
    alloc: Global,
    problem: &Problem,
    cert: &BriefCertificate,
) -> Result<Option<Failure>, AllocError>
    requires few { line_count (plain_brief cert.now) < 2 ^ 32 - 5 }
    ensures { IfOk result (λ found. found ≡ head_failure_in_brief (plain_problem problem.now) (plain_brief cert.now)) }
{
    let found = size_failure(problem, cert);
    if found.is_some() {
        return Ok(found);
    }
    let named = primary_lines(alloc, problem)?;
    let first = 5 + cert.sizes.len() as u32;
    Ok(unfit_primary(&named, first, &cert.primaries))
}

/// The first failure of a certificate.
fn first_failure<R: Threads + Sync>(
    rt: &R,
    alloc: Global,
    problem: &Problem,
    cert: &BriefCertificate,
    workers: u32,
) -> Result<Option<Failure>, AllocError>
    requires few { line_count (plain_brief cert.now) < 2 ^ 32 - 5 }
    ensures { IfOk result (λ found. found ≡ first_failure_in_brief (plain_problem problem.now) (plain_brief cert.now)) }
{
    let found = head_failure(alloc, problem, cert)?;
    if found.is_some() {
        return Ok(found);
    }
    let first = 5 + cert.sizes.len() as u32 + cert.primaries.len() as u32;
    let shown = show(rt, alloc, problem, first, &cert.shells, workers)?;
    match shown {
        Shown::Fails(failure) => Ok(Some(failure)),
        Shown::Boxes(boxes) => cell_failure(rt, alloc, problem, &boxes, cert, workers),
    }
}

fn answer_of(found: Option<Failure>) -> Answer
    ensures { failure_of result ≡ found }
{
    match found {
        None => Answer::Accepted,
        Some(Failure { line, cause }) => Answer::Refused { line, cause },
    }
}

/// Whether a certificate in brief is accepted for a problem, or else the first line at which it is not, and why, by as many threads as
/// there are workers. It rests on no work of the run that wrote the certificate: each shell and cell is compared with the hulls of the
/// tracks, boxes are made of them in the same walk, and each root that has no cell is halved.
pub fn check_in_brief<R: Threads + Sync>(
    rt: &R,
    alloc: Global,
    problem: &Problem,
    cert: &BriefCertificate,
    workers: u32,
) -> Result<Answer, AllocError>
    requires few { line_count (plain_brief cert.now) < 2 ^ 32 - 5 }

    // The line and the cause are the first ones, and there are none exactly where it is accepted.
    ensures value { IfOk result (λ answer. failure_of answer ≡ first_failure_in_brief (plain_problem problem.now) (plain_brief cert.now)) }
    ensures exact { IfOk result (λ answer. (answer ≡ Answer.Accepted) ↔ AcceptedInBrief (plain_problem problem.now) (plain_brief cert.now)) }

    // The cells of whatever certificate in brief is accepted for the problem split all its common ticks.
    ensures law { BriefSplits (plain_problem problem.now) }
{
    acceptance_in_brief(problem);
    let found = first_failure(rt, alloc, problem, cert, workers)?;
    Ok(answer_of(found))
}
