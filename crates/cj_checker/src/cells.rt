//! The lines of cells.
ghost use Rattle.std.specs.Prelude.{◌≡◌, ◌+◌, ◌-◌, ◌^◌, ◌<◌, ◌≤◌, None, length, vec_len, IfOk};
ghost use Rattle.cj_case.specs.Problems.{plain_problem};
ghost use Rattle.cj_cert.specs.Certificates.{line_count, plain_certificate};
ghost use Rattle.cj_cert.specs.Listed.{box_listed};
ghost use Rattle.cj_checker.specs.ListedBoxes.{table_of};
ghost use Rattle.cj_checker.specs.First.{box_failure, cell_failure as the_failure, failed, first_cell_line};

use crate::cell_fault::CellFault;
use crate::failure::{FIRST_LINE, Failure};
use crate::listed::Listed;
use crate::rounds::round_from;
use crate::tiling_shared::tile_together;
use cj_case::Problem;
use cj_cert::Certificate;
use cj_formats::CheckCause;
use std::alloc::{AllocError, Global};
use std::thread::Threads;

/// A fault of a cell at its line.
fn failure_at(cert: &Certificate, fault: CellFault) -> Option<Failure>
    requires few { line_count (plain_certificate cert.now) < 2 ^ 32 - 5 }
    requires place { fault.at ≤ vec_len cert.now.cells }
    ensures { result ≡ failed (first_cell_line (plain_certificate cert.now) + fault.at) fault.cause }
{
    let before = cert.sizes.len() + cert.shells.len() + cert.boxes.len() + fault.at;
    Some(Failure {
        line: FIRST_LINE + before as u32,
        cause: fault.cause,
    })
}

/// The first line of a cell that does not tile the roots in order, by the table of the listed boxes.
fn first_fault<R: Threads + Sync>(
    rt: &R,
    alloc: Global,
    problem: &Problem,
    cert: &Certificate,
    listed: &Listed,
    workers: u32,
) -> Result<Option<Failure>, AllocError>
    requires few { line_count (plain_certificate cert.now) < 2 ^ 32 - 5 }
    requires objects { cert.now.objects ≡ length problem.now.tracks }
    requires shells { length cert.now.shells.items ≡ length problem.now.tracks }
    requires boxes { table_of listed.now ≡ box_listed (plain_certificate cert.now).boxes }
    ensures { IfOk result (λ found. found ≡ the_failure (plain_problem problem.now) (plain_certificate cert.now)) }
{
    let objects = problem.tracks.as_slice().len() as u32;
    let mut first = 0;
    let mut at = 0;
    while first < objects {
        let lines = cert.cells.len() - at;
        let round = round_from(alloc, problem, cert, listed, first, lines)?;
        let found = tile_together(rt, alloc, problem, &round.keys, &cert.cells, at, workers)?;
        match found {
            Ok(next) => at = next,
            Err(fault) => return Ok(failure_at(cert, fault)),
        }
        first = round.end;
    }
    if at < cert.cells.len() {
        let cause = CheckCause::Stranger;
        return Ok(failure_at(cert, CellFault { at, cause }));
    }
    Ok(None)
}

/// The first line of a cell that does not tile the roots in order, or whose kind its hulls do not show. Lines that are missing are
/// found at the line behind.
pub(crate) fn cell_failure<R: Threads + Sync>(
    rt: &R,
    alloc: Global,
    problem: &Problem,
    cert: &Certificate,
    workers: u32,
) -> Result<Option<Failure>, AllocError>
    requires few { line_count (plain_certificate cert.now) < 2 ^ 32 - 5 }
    requires objects { cert.now.objects ≡ length problem.now.tracks }
    requires shells { length cert.now.shells.items ≡ length problem.now.tracks }
    requires boxes { box_failure (plain_problem problem.now) (plain_certificate cert.now) ≡ None }
    ensures { IfOk result (λ found. found ≡ the_failure (plain_problem problem.now) (plain_certificate cert.now)) }
{
    let listed = Listed::new(alloc, problem, cert)?;
    first_fault(rt, alloc, problem, cert, &listed, workers)
}
