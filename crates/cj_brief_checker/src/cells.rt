//! The lines of cells.
ghost use Rattle.std.specs.Prelude.{◌≡◌, ◌+◌, ◌-◌, ◌^◌, ◌<◌, ◌≤◌, length, vec_len, IfOk};
ghost use Rattle.cj_case.specs.Problems.{plain_problem};
ghost use Rattle.cj_brief.specs.Certificates.{line_count, plain_brief};
ghost use Rattle.cj_checker.specs.First.{failed};
ghost use Rattle.cj_brief_checker.specs.First.{first_cell_line, told_failure};
ghost use Rattle.cj_brief_checker.specs.Shown.{AreBoxes};

use crate::slot_cells::{found_from, try_slots};
use cj_brief::BriefCertificate;
use cj_case::{AxisBox, BySlot, Problem, slot_count};
use cj_checker::{CellFault, Failure};
use cj_formats::CheckCause;
use std::alloc::{AllocError, Global};
use std::thread::Threads;

/// A fault of a cell at its line.
fn failure_at(cert: &BriefCertificate, fault: CellFault) -> Option<Failure>
    requires few { line_count (plain_brief cert.now) < 2 ^ 32 - 5 }
    requires place { fault.at ≤ vec_len cert.now.cells }
    ensures { result ≡ failed (first_cell_line (plain_brief cert.now) + fault.at) fault.cause }
{
    let before = cert.sizes.len() + cert.primaries.len() + cert.shells.len() + fault.at;
    Some(Failure {
        line: 5 + before as u32,
        cause: fault.cause,
    })
}

/// The first line of a cell that does not tile the roots in order, slot by slot, or whose kind its hulls do not show. Lines that are
/// missing, of a root that is not far throughout, are found at the line behind.
pub(crate) fn cell_failure<R: Threads + Sync>(
    rt: &R,
    alloc: Global,
    problem: &Problem,
    boxes: &BySlot<Option<AxisBox>>,
    cert: &BriefCertificate,
    workers: u32,
) -> Result<Option<Failure>, AllocError>
    requires few { line_count (plain_brief cert.now) < 2 ^ 32 - 5 }
    requires boxes { AreBoxes (plain_problem problem.now) boxes.now }
    requires shells { length cert.now.shells.items ≡ length problem.now.tracks }
    ensures { IfOk result (λ found. found ≡ told_failure (plain_problem problem.now) (plain_brief cert.now)) }
{
    let tries = try_slots(rt, alloc, problem, boxes, cert, workers)?;
    let mut at = 0;
    for slot in 0..slot_count(problem.window) {
        let tried = tries[slot as usize];
        let found = found_from(alloc, problem, boxes, cert, slot, tried, at)?;
        match found {
            Ok(next) => at = next,
            Err(fault) => return Ok(failure_at(cert, fault)),
        }
    }
    if at < cert.cells.len() {
        let cause = CheckCause::Stranger;
        return Ok(failure_at(cert, CellFault { at, cause }));
    }
    Ok(None)
}
