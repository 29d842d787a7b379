//! From a problem to its leaves.
ghost use Rattle.std.specs.Prelude.{◌≡◌, ◌≤◌, length, IfOk, IfErr, OnOk};
ghost use Rattle.cj_case.specs.Problems.{plain_problem};
ghost use Rattle.cj_case.specs.Leaves.{plain_leaves};
ghost use Rattle.cj_candidates.specs.MeasuredObjects.{AreOfProblem};
ghost use Rattle.cj_bezier.specs.Candidates.{is_candidate};
ghost use Rattle.cj_case.specs.Cells.{plain_cells};
ghost use Rattle.cj_cells.specs.Lists.{list_candidates};
ghost use Rattle.cj_formats.specs.declared.cert_format.CertFormat.TheVariants.{Brief};
ghost use Rattle.cj_hermite.specs.Roots.{roots_of};
ghost use Rattle.cj_outputs.specs.Findings.{told_in};
ghost use Rattle.cj_outputs.specs.Outcome.{few_told, within_cells};
ghost use Rattle.cj_screen.specs.Errors.{refined_status};
ghost use Rattle.cj_screen.specs.Refining.{AreFoundLeaves, HoldsAllTicks};
ghost use Rattle.cj_status.specs.Steps.{Gives, ComesBetween};

use cj_brief::told_of_list;
use cj_candidates::{Candidates, find_candidates};
use cj_case::{Cell, Leaf, Measured, Problem};
use cj_cells::RefineError;
use cj_formats::CertFormat;
use cj_io::Gate;
use cj_outputs::Wanted;
use cj_pool::leaves_by_workers;
use cj_status::{LimitFault, Status};
use std::alloc::{AllocError, Global};
use std::sync::Wait;
use std::thread::Threads;

/// What is counted before any cell is halved.
#[derive(Clone, Copy, Debug)]
pub struct CandidateCounts {
    pub kept: u64,
    pub touching: u64,
    pub roots: u64,
}

/// The leaves of a problem, and what they come from.
#[derive(Drop)]
pub struct FoundLeaves {
    /// The shells and boxes of its objects.
    pub measured: Measured,
    /// What was counted before any cell was halved.
    pub counted: CandidateCounts,
    /// The leaves of all candidates, in order of pair and time.
    pub leaves: Vec<Leaf>,
    /// Where the certificate is in brief, those of the roots that are not far throughout, in order of slot, pair and time; else none.
    pub told: Vec<Leaf>,
}

/// The leaves of a problem, where there are at most as many as are wanted.
pub fn refine<R: Threads + Wait + Sync, G: Gate + Sync>(
    rt: &R,
    alloc: Global,
    gate: &G,
    problem: &Problem,
    wanted: Wanted,
) -> Result<FoundLeaves, Status>
    ensures between { IfErr result ComesBetween }
    ensures told { Gives ⊥ (λ refined. plain_leaves refined.leaves.items) result (within_cells wanted.leaves (list_candidates (plain_problem problem.now))) }
    ensures few { IfOk result (λ refined. length refined.leaves.items ≤ wanted.leaves) }
    ensures theirs { IfOk result (λ refined. AreOfProblem problem.now refined.measured) }
    ensures refined { IfOk result (AreFoundLeaves wanted.format (plain_problem problem.now)) }
    ensures ticks { OnOk result (HoldsAllTicks (plain_problem problem.now)) }
{
    let found = find_candidates(rt, alloc, gate, problem, wanted.workers, wanted.leaves);
    let candidates = match found {
        Ok(candidates) => candidates,
        Err(error) => return Err(refused(error, wanted.leaves)),
    };
    let counted = counts_of(&candidates);
    let Candidates {
        measured,
        roots,
        ..
    } = candidates;
    let kept = kept_roots(alloc, &roots, wanted.format)?;
    let leaves = leaves_by_workers(
        rt,
        alloc,
        gate,
        problem,
        roots,
        wanted.workers,
        wanted.leaves,
    );
    let leaves = match leaves {
        Ok(leaves) => leaves,
        Err(error) => return Err(refused(error, wanted.leaves)),
    };
    let told = told_leaves(alloc, problem, &kept, &leaves, wanted.format)?;
    Ok(FoundLeaves {
        measured,
        counted,
        leaves,
        told,
    })
}

/// Refuses more leaves that a certificate tells apart than there may be.
pub fn judge_told(told: &[Leaf], most: u64) -> Result<(), Status>
    ensures told { Gives ⊥ (λ done. done) result (few_told most (length told.now)) }
    ensures between { IfErr result ComesBetween }
{
    if told.len() as u64 <= most {
        Ok(())
    } else {
        Err(Status::Limit(LimitFault::Told { limit: most }))
    }
}

/// The roots once more, where a certificate of this format asks for them once they are halved; else none.
fn kept_roots(alloc: Global, roots: &[Cell], format: CertFormat) -> Result<Vec<Cell>, AllocError>
    ensures { IfOk result (λ kept. format ≡ Brief → kept.items ≡ roots.now) }
{
    match format {
        CertFormat::Full(_) => Ok(Vec::new(alloc)),
        CertFormat::Brief => roots.to_vec(alloc),
    }
}

/// The leaves that a certificate of this format tells apart from the others, from the roots of all candidates and their leaves.
pub fn told_leaves(
    alloc: Global,
    problem: &Problem,
    roots: &[Cell],
    leaves: &[Leaf],
    format: CertFormat,
) -> Result<Vec<Leaf>, AllocError>
    requires roots { format ≡ Brief → plain_cells roots.now ≡ roots_of (is_candidate (plain_problem problem.now)) (plain_problem problem.now) }
    requires leaves { plain_leaves leaves.now ≡ list_candidates (plain_problem problem.now) }
    ensures { IfOk result (λ told. plain_leaves told.items ≡ told_in format (plain_problem problem.now)) }
{
    match format {
        CertFormat::Full(_) => Ok(Vec::new(alloc)),
        CertFormat::Brief => told_of_list(alloc, problem, roots, leaves),
    }
}

/// What is counted of candidates.
pub fn counts_of(candidates: &Candidates) -> CandidateCounts
    ensures kept { result.kept ≡ candidates.now.kept }
    ensures touching { result.touching ≡ candidates.now.touching }
    ensures roots { result.roots ≡ length candidates.now.roots.items }
{
    CandidateCounts {
        kept: candidates.kept,
        touching: candidates.touching,
        roots: candidates.roots.len() as u64,
    }
}

/// How a run ends whose list of roots or leaves is not whole.
pub fn refused(error: RefineError, cells: u64) -> Status
    ensures { result ≡ refined_status cells error }
{
    match error {
        RefineError::Memory => Status::OutOfMemory,
        RefineError::TooMany => Status::Limit(LimitFault::Cells { limit: cells }),
    }
}
