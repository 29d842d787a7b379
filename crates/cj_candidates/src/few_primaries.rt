//! Where few objects are primaries, their pairs are compared one by one.
ghost use Rattle.std.specs.Prelude.{◌≡◌, map, IfOk, IfSome};
ghost use Rattle.cj_case.specs.Pairs.{objects_of};
ghost use Rattle.cj_case.specs.Problems.{plain_problem};
ghost use Rattle.cj_bezier.specs.Candidates.{pairs_kept};
ghost use Rattle.cj_bezier.specs.MeasuredObjects.{AreMeasured};
ghost use Rattle.cj_candidates.specs.SoughtPairs.{HoldCandidates, pairs_sought};

use crate::sought_pairs::Sought;
use cj_case::{Measured, Pair, Primaries, Problem};
use cj_sieve::kept_pairs;
use std::alloc::{AllocError, Global};

/// So many primaries are few.
const FEW: usize = 64;

/// Whether objects are named as primaries, and they are few.
fn are_few(primaries: &Primaries) -> bool {
    match primaries.marks() {
        Some(marks) => count_marked(marks) <= FEW,
        None => false,
    }
}

/// How many objects are marked.
fn count_marked(marks: &[bool]) -> usize {
    let mut count = 0usize;
    for mark in marks {
        if *mark {
            count = count.saturating_add(1);
        }
    }
    count
}

/// The pairs of a problem that are kept, once its objects are measured, where few of them are primaries.
pub fn few_kept(
    alloc: Global,
    problem: &Problem,
    measured: &Measured,
) -> Result<Option<Vec<Pair>>, AllocError>
    requires measured { AreMeasured (plain_problem problem.now) measured.now }
    ensures { IfOk result (λ few. IfSome few (λ pairs. map objects_of pairs.items ≡ pairs_kept (plain_problem problem.now))) }
{
    if !are_few(&problem.primaries) {
        return Ok(None);
    }
    let pairs = kept_pairs(
        alloc,
        &measured.shells,
        problem.sizes.as_slice(),
        &problem.primaries,
        problem.threshold,
    )?;
    Ok(Some(pairs))
}

/// Pairs among which all candidates of a problem are: those that are kept, where they are listed, or all.
pub fn sought_among<'s>(problem: &Problem, few: &'s Option<Vec<Pair>>) -> Sought<'s>
    requires { IfSome few.now (λ pairs. map objects_of pairs.items ≡ pairs_kept (plain_problem problem.now)) }
    ensures { HoldCandidates (plain_problem problem.now) (pairs_sought (plain_problem problem.now) result) }
{
    match few {
        Some(pairs) => Sought::These(pairs.as_slice()),
        None => Sought::All,
    }
}
