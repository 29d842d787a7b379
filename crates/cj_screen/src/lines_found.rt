//! What certificates are made of, from lists of leaves or slab by slab.
ghost use Rattle.std.specs.Prelude.{◌≡◌, ◌≤◌, IfErr, IfOk, Ok, OnOk, length};
ghost use Rattle.cj_case.specs.PlainProblems.{PlainProblem};
ghost use Rattle.cj_case.specs.Problems.{plain_problem};
ghost use Rattle.cj_cells.specs.Lists.{list_candidates};
ghost use Rattle.cj_outputs.specs.Outcome.{within_told};
ghost use Rattle.cj_screen.specs.Refining.{AreFoundLeaves, AreFoundLines, HoldsAllTicks, leaves_asked};
ghost use Rattle.cj_status.specs.Steps.{ComesBetween, Gives};

use crate::refining::{FoundLeaves, judge_told, refine};
use crate::sifting::sift_all;
use cj_case::{Measured, Problem, Shell};
use cj_formats::CertFormat;
use cj_io::Gate;
use cj_outputs::{Lines, SearchCounts, Wanted};
use cj_slabs::LeafCounts;
use cj_status::Status;
use std::alloc::Global;
use std::sync::Wait;
use std::thread::Threads;

/// What the certificate of a problem is made of, and what was counted on the way to it.
#[derive(Drop)]
pub struct FoundLines {
    pub lines: Lines,
    pub counted: SearchCounts,
}

/// What the certificate of a problem is made of, where it has at most as many leaves as are wanted, and at most as many that its certificate
/// tells: slab by slab where that is wanted, else from lists of all roots and leaves.
pub fn find_lines<R: Threads + Wait + Sync, G: Gate + Sync>(
    rt: &R,
    alloc: Global,
    gate: &G,
    problem: &Problem,
    wanted: Wanted,
) -> Result<FoundLines, Status>
    ensures between { IfErr result ComesBetween }
    ensures told { Gives ⊥ (λ _. list_candidates (plain_problem problem.now)) result
        (leaves_asked wanted.leaves wanted.told wanted.format (plain_problem problem.now)) }
    ensures few { OnOk result (length (list_candidates (plain_problem problem.now)) ≤ wanted.leaves) }
    ensures few_told { OnOk result (within_told wanted.told wanted.format (plain_problem problem.now) ≡ Ok tt) }
    ensures found { IfOk result (AreFoundLines wanted.format (plain_problem problem.now)) }
    ensures ticks { OnOk result (HoldsAllTicks (plain_problem problem.now)) }
{
    if wanted.goes_by_slabs() {
        return sift_all(rt, alloc, gate, problem, wanted);
    }
    let refined = refine(rt, alloc, gate, problem, wanted)?;
    judge_told(&refined.told, wanted.told)?;
    Ok(lines_of(refined, wanted.format))
}

/// What a certificate of this format is made of, from lists of all leaves. One in brief asks for no boxes.
pub fn lines_of(refined: FoundLeaves, format: CertFormat) -> FoundLines
    requires { refined.counted.roots ≤ length refined.leaves.items }
    ensures { (case : PlainProblem) → AreFoundLeaves format case refined → HoldsAllTicks case → AreFoundLines format case result }
{
    let FoundLeaves {
        measured,
        counted,
        leaves,
        told,
    } = refined;
    let counted = SearchCounts {
        kept: counted.kept,
        touching: counted.touching,
        leaves: LeafCounts::of_list(counted.roots, &leaves),
    };
    match format {
        CertFormat::Full(version) => FoundLines {
            lines: Lines::InFull {
                version,
                measured,
                leaves,
            },
            counted,
        },
        CertFormat::Brief => FoundLines {
            lines: Lines::InBrief {
                shells: shells_alone(measured),
                told,
                met: leaves,
            },
            counted,
        },
    }
}

/// Of what is measured the shells; the boxes are given up.
pub fn shells_alone(measured: Measured) -> Vec<Option<Shell>>
    ensures { result.items ≡ measured.shells.items }
{
    let Measured { shells, .. } = measured;
    shells
}
