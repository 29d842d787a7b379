//! The primaries that a certificate in brief tells.
ghost use Rattle.std.specs.Prelude.{◌≡◌, ◌≤◌, IfOk, filter, length, slice_index_or, false};
ghost use Rattle.std.specs.List.{range_with_len};
ghost use Rattle.cj_base.specs.Bounds.{MOST_OBJECTS};
ghost use Rattle.cj_case.specs.Primaries.{named};
ghost use Rattle.cj_case.specs.Problems.{plain_problem};

use cj_case::Problem;
use std::alloc::{AllocError, Global};

/// Whether an object is marked.
fn is_marked(marks: &[bool], object: u32) -> bool
    ensures { result ≡ slice_index_or marks.now object false }
{
    marks.get(object as usize).copied().unwrap_or(false)
}

/// The numbers of the objects that are marked, in order.
fn marked(alloc: Global, marks: &[bool]) -> Result<Vec<u32>, AllocError>
    requires { length marks.now ≤ MOST_OBJECTS }
    ensures { IfOk result (λ numbers. numbers.items ≡ filter (λ object. slice_index_or marks.now object false) (range_with_len 0 (length marks.now))) }
{
    let mut numbers = Vec::new(alloc);
    for object in 0..marks.len() as u32 {
        if is_marked(marks, object) {
            numbers.push(object)?;
        }
    }
    Ok(numbers)
}

/// The numbers of the objects of a problem that are named as primaries, in order.
pub fn primary_lines(alloc: Global, problem: &Problem) -> Result<Vec<u32>, AllocError>
    ensures { IfOk result (λ lines. lines.items ≡ named (plain_problem problem.now).primaries) }
{
    match problem.primaries.marks() {
        Some(marks) => marked(alloc, marks),
        None => Ok(Vec::new(alloc)),
    }
}
