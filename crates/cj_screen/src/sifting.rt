//! From a problem to what its certificate in brief is made of, slab by slab.
ghost use Rattle.std.specs.Prelude.{◌≡◌, ◌≤◌, IfErr, IfOk, Ok, OnOk, length};
ghost use Rattle.cj_case.specs.Problems.{plain_problem};
ghost use Rattle.cj_cells.specs.Lists.{list_candidates};
ghost use Rattle.cj_formats.specs.declared.cert_format.CertFormat.TheVariants.{Brief};
ghost use Rattle.cj_outputs.specs.Outcome.{within_told};
ghost use Rattle.cj_screen.specs.Errors.{sifted_status};
ghost use Rattle.cj_screen.specs.Refining.{AreFoundLines, HoldsAllTicks, leaves_asked};
ghost use Rattle.cj_status.specs.Steps.{ComesBetween, Gives};

use crate::lines_found::{FoundLines, shells_alone};
use cj_candidates::{count_kept_of, measure_all};
use cj_case::Problem;
use cj_io::Gate;
use cj_outputs::{Lines, SearchCounts, Wanted};
use cj_slabs::{LeafLimits, SiftError, Sifted, marked, sift, told_in_one};
use cj_status::{LimitFault, Status};
use std::alloc::Global;
use std::thread::Threads;

/// What the certificate in brief of a problem is made of, where it has at most as many leaves as are wanted, and at most as many that are told.
/// Boxes are given up once the slabs are searched.
pub fn sift_all<R: Threads + Sync, G: Gate + Sync>(
    rt: &R,
    alloc: Global,
    gate: &G,
    problem: &Problem,
    wanted: Wanted,
) -> Result<FoundLines, Status>
    ensures between { IfErr result ComesBetween }
    ensures told { Gives ⊥ (λ _. list_candidates (plain_problem problem.now)) result
        (leaves_asked wanted.leaves wanted.told Brief (plain_problem problem.now)) }
    ensures few { OnOk result (length (list_candidates (plain_problem problem.now)) ≤ wanted.leaves) }
    ensures few_told { OnOk result (within_told wanted.told Brief (plain_problem problem.now) ≡ Ok tt) }
    ensures found { IfOk result (AreFoundLines Brief (plain_problem problem.now)) }
    ensures ticks { OnOk result (HoldsAllTicks (plain_problem problem.now)) }
{
    let workers = wanted.workers;
    let measured = measure_all(rt, alloc, gate, problem, workers)?;
    let kept = count_kept_of(rt, alloc, problem, &measured, workers)?;
    let limits = LeafLimits {
        leaves: wanted.leaves,
        told: wanted.told,
    };
    let sifted = match sift(rt, alloc, gate, problem, &measured, workers, limits) {
        Ok(sifted) => sifted,
        Err(error) => return Err(not_sifted(error, limits)),
    };
    let shells = shells_alone(measured);
    let met = marked(rt, alloc, &sifted, workers)?;
    let Sifted {
        slabs,
        touching,
        counts,
    } = sifted;
    let told = told_in_one(alloc, slabs)?;
    let counted = SearchCounts {
        kept,
        touching,
        leaves: counts,
    };
    Ok(FoundLines {
        lines: Lines::InBrief { shells, told, met },
        counted,
    })
}

/// How a run ends whose problem is not sifted within these limits.
fn not_sifted(error: SiftError, limits: LeafLimits) -> Status
    ensures { result ≡ sifted_status limits.leaves limits.told error }
{
    match error {
        SiftError::Memory => Status::OutOfMemory,
        SiftError::TooMany => Status::Limit(LimitFault::Cells {
            limit: limits.leaves,
        }),
        SiftError::TooManyTold => Status::Limit(LimitFault::Told { limit: limits.told }),
    }
}
