//! What is shown of an object by one walk along its track: the shell that is listed for it, and its box in each slot.
ghost use Rattle.std.specs.Prelude.{◌≡◌, ◌++◌, IfOk, None, OnOk, Some};
ghost use Rattle.cj_track.specs.Tracks.{plain_track};
ghost use Rattle.cj_case.specs.Boxes.{plain_boxes};
ghost use Rattle.cj_case.specs.Problems.{plain_problem};
ghost use Rattle.cj_bezier.specs.AllBoxes.{boxes_over};
ghost use Rattle.cj_checker.specs.Rows.{plain_row, row_at, row_of};
ghost use Rattle.cj_checker.specs.Walks.{IsWalk};

use crate::box_round::box_of_hulls;
use crate::course::Course;
use crate::row::Row;
use crate::shells::has_state;
use crate::walk::Walk;
use cj_base::Window;
use cj_case::{AxisBox, Problem};
use cj_cert::ShellLine;
use cj_track::Track;
use std::alloc::{AllocError, Global};

/// Appends the boxes of a track in so many slots of the window.
fn append_boxes(
    course: &Course,
    slots: u32,
    walk: &mut Walk,
    boxes: &mut Vec<Option<AxisBox>>,
) -> Result<(), AllocError>
    requires { IsWalk course.now walk.old }
    ensures boxes { OnOk result (plain_boxes boxes.new.items ≡ plain_boxes boxes.old.items ++ boxes_over (plain_track course.now.track.now)
        course.now.problem.now.window.first.micros course.now.problem.now.window.last.micros slots) }
    ensures walks { IsWalk course.now walk.new }
{
    for slot in 0..slots {
        boxes.push(box_of_hulls(course, slot, walk))?;
    }
    Ok(())
}

/// The boxes of a track in so many slots of the window, where all its hulls there show the radii of the shell, and it has one.
fn row_in_shell(alloc: Global, course: &Course, slots: u32) -> Result<Option<Row>, AllocError>
    ensures { IfOk result (λ row. plain_row row ≡ row_of (plain_track course.now.track.now)
        course.now.problem.now.window.first.micros course.now.problem.now.window.last.micros slots (Some course.now.shell)) }
{
    let Some(mut walk) = Walk::new(course) else {
        return Ok(None);
    };
    let mut boxes = Vec::with_capacity(alloc, slots as usize)?;
    append_boxes(course, slots, &mut walk, &mut boxes)?;
    if walk.shows_all(course) {
        Ok(Some(Row { boxes }))
    } else {
        Ok(None)
    }
}

/// That there is no box in any of so many slots, where a track has no state in the window.
fn row_without(
    alloc: Global,
    track: &Track,
    window: Window,
    slots: u32,
) -> Result<Option<Row>, AllocError>
    ensures { IfOk result (λ row. plain_row row
        ≡ row_of (plain_track track.now) window.first.micros window.last.micros slots None) }
{
    if has_state(track, window) {
        return Ok(None);
    }
    let mut boxes = Vec::with_capacity(alloc, slots as usize)?;
    boxes.resize(slots as usize, None)?;
    Ok(Some(Row { boxes }))
}

/// The boxes of an object in so many slots, where the line in its place has its shell. None where it has not.
pub fn row_shown(
    alloc: Global,
    problem: &Problem,
    object: u32,
    line: ShellLine,
    slots: u32,
) -> Result<Option<Row>, AllocError>
    ensures { IfOk result (λ row. plain_row row ≡ row_at (plain_problem problem.now) slots object line) }
{
    let Some(track) = problem.tracks.as_slice().get(object as usize) else {
        return Ok(None);
    };
    if line.object != object {
        return Ok(None);
    }
    match line.shell {
        None => row_without(alloc, track, problem.window, slots),
        Some(shell) => {
            let course = Course {
                problem,
                track,
                shell,
            };
            row_in_shell(alloc, &course, slots)
        }
    }
}
