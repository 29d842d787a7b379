//! What a summary tells of the ticks that objects cover.
ghost use Rattle.std.specs.Prelude.{◌≡◌, ◌++◌, OnOk};
ghost use Rattle.cj_case.specs.Problems.{plain_problem};
ghost use Rattle.cj_outputs.specs.Outcome.{uncovered_told};

use cj_case::Problem;
use cj_coverage::count_uncovered;
use cj_report::{Tells, push_uncovered};
use std::alloc::AllocError;

/// Adds how many objects of a problem do not cover its whole window, where this is told.
pub(crate) fn push_coverage(
    text: &mut Vec<u8>,
    tells: Tells,
    problem: &Problem,
) -> Result<(), AllocError>
    ensures { OnOk result (text.new.items ≡ text.old.items ++ uncovered_told tells (plain_problem problem.now)) }
{
    if tells.coverage {
        push_uncovered(text, count_uncovered(problem) as u64)
    } else {
        Ok(())
    }
}
