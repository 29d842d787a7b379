//! The lines of shells against the tracks, by several workers. Each track is walked along once, for its shell and its boxes.
ghost use Rattle.std.specs.Prelude.{◌≡◌, ℕ, ◌+◌, ◌^◌, ◌<◌, IfOk, Some, get_or, length, map, take};
ghost use Rattle.cj_case.specs.Problems.{plain_problem};
ghost use Rattle.cj_case.specs.Slots.{slot_count as the_count};
ghost use Rattle.cj_cert.specs.declared.cert_lines.ShellLine.{ShellLine};
ghost use Rattle.cj_formats.specs.declared.check_cause.CheckCause.TheVariants.{ShellOf};
ghost use Rattle.cj_checker.specs.First.{failed as a_failure};
ghost use Rattle.cj_checker.specs.Rows.{plain_row, row_at};
ghost use Rattle.cj_brief_checker.specs.Shown.{AreShown, rows_from};

use crate::shown::Shown;
use cj_case::{BySlot, Problem, slot_count};
use cj_cert::ShellLine;
use cj_checker::{Failure, Row, row_shown};
use cj_formats::CheckCause;
use cj_threads::{Nobody, all_made, map_dealt};
use std::alloc::{AllocError, Global};
use std::thread::Threads;

/// The lines of so many objects, and one behind them, which fails.
fn asked(lines: &[ShellLine], objects: usize) -> &[ShellLine]
    ensures { result.now ≡ take (objects + 1) lines.now }
{
    if lines.len() <= objects {
        return lines;
    }
    let (some, _) = lines.split_at(objects + 1);
    some
}

/// What each line shows of its object in so many slots, by as many threads as there are workers: each takes the next line.
fn rows_of<R: Threads + Sync>(
    rt: &R,
    alloc: Global,
    problem: &Problem,
    lines: &[ShellLine],
    slots: u32,
    workers: u32,
) -> Result<Vec<Option<Row>>, AllocError>
    requires few { length lines.now < 2 ^ 32 }
    ensures { IfOk result (λ rows. map plain_row rows.items ≡ rows_from (plain_problem problem.now) slots 0 lines.now) }
{
    let make = |object: usize| -> Result<Option<Row>, AllocError>
        requires { (object < length lines.now) × (length lines.now < 2 ^ 32) }
        ensures { (d : ShellLine) → IfOk result (λ row. plain_row row ≡ row_at (plain_problem problem.entry.now) slots object (get_or lines.entry.now object d)) }
    { row_shown(alloc, problem, object as u32, lines[object], slots) };
    let rows = map_dealt(rt, alloc, lines.len(), workers as usize, &Nobody, &make)?;
    let made = all_made(alloc, rows)?;
    Ok(made)
}

/// The failure of the line of an object, the first of which is at a line.
fn unfit(first: u32, object: usize) -> Failure
    requires { first + object < 2 ^ 32 }
    ensures { Some result ≡ a_failure (first + object) ShellOf }
{
    Failure {
        line: first + object as u32,
        cause: CheckCause::ShellOf,
    }
}

/// What the rows of some lines show.
fn in_one(
    alloc: Global,
    problem: &Problem,
    first: u32,
    _lines: &[ShellLine],
    rows: Vec<Option<Row>>,
) -> Result<Shown, AllocError>
    requires few { first + length rows.items < 2 ^ 32 }
    requires rows { map plain_row rows.items
        ≡ rows_from (plain_problem problem.now) (the_count problem.now.window.first.micros problem.now.window.last.micros) 0 _lines.now }
    ensures { IfOk result (AreShown (plain_problem problem.now) first _lines.now) }
{
    let mut boxes = BySlot::new(alloc, slot_count(problem.window));
    for found in rows {
        let Some(row) = found else {
            return Ok(Shown::Fails(unfit(first, boxes.objects())));
        };
        boxes.push(row.boxes)?;
    }
    let count = boxes.objects();
    if count < problem.tracks.as_slice().len() {
        return Ok(Shown::Fails(unfit(first, count)));
    }
    Ok(Shown::Boxes(boxes))
}

/// What the lines of shells show of the objects, the first of which is at a line. Lines that are missing or left are found at the line
/// behind.
pub(crate) fn show<R: Threads + Sync>(
    rt: &R,
    alloc: Global,
    problem: &Problem,
    first: u32,
    lines: &[ShellLine],
    workers: u32,
) -> Result<Shown, AllocError>
    requires few { first + length lines.now < 2 ^ 32 }
    ensures { IfOk result (AreShown (plain_problem problem.now) first lines.now) }
{
    let slots = slot_count(problem.window);
    let some = asked(lines, problem.tracks.as_slice().len());
    let rows = rows_of(rt, alloc, problem, some, slots, workers)?;
    in_one(alloc, problem, first, some, rows)
}
