//! The lines of shells, and with them those of boxes, so that each track is walked along once, by several workers. A worker takes the
//! lines of an object's boxes from where they begin if all stand in order, of which nothing is proved: what it reads counts where the lines
//! of the objects before end there, and else the object is gone over again.
ghost use Rattle.std.specs.Prelude.{◌≡◌, ◌+◌, ◌-◌, ◌^◌, ◌<◌, ◌≤◌, [], true, false, Some, length, map, slice_get, get_or, vec_len, IfNone, IfOk, IfSome};
ghost use Rattle.std.specs.List.{enumerate_from};
ghost use Rattle.std.specs.Option.{option_or};
ghost use Rattle.cj_track.specs.Tracks.{plain_track};
ghost use Rattle.cj_case.specs.PlainProblems.{PlainProblem};
ghost use Rattle.cj_case.specs.Problems.{plain_problem};
ghost use Rattle.cj_cert.specs.Certificates.{plain_box_line, plain_certificate};
ghost use Rattle.cj_cert.specs.declared.cert_lines.ShellLine.{ShellLine};
ghost use Rattle.cj_checker.specs.BoxesRead.{AreObjectsRead, IsObjectRead, IsReadOn, fails_behind};
ghost use Rattle.cj_checker.specs.First.{box_failure, first_box_line, fits_at, shell_failure};
ghost use Rattle.cj_checker.specs.Tests.{has_state_between, is_shell_over, is_shell_line};
ghost use Rattle.cj_checker.specs.Walks.{IsWalk};

use crate::boxes::read_boxes;
use crate::boxes_read::{BoxesRead, ObjectRead};
use crate::course::Course;
use crate::failure::{FIRST_LINE, Failure, failed};
use crate::walk::Walk;
use cj_base::Window;
use cj_case::Problem;
use cj_cert::{BoxLine, Certificate, ShellLine};
use cj_formats::CheckCause;
use cj_hermite::next_run;
use cj_threads::{Nobody, map_dealt};
use cj_track::Track;
use std::alloc::{AllocError, Global};
use std::thread::Threads;

/// The first line of shells that is not the shell of the object in its place, or else the first line of boxes that does not have the
/// next slots of an object in which it has a state, or lets one of its hulls out. Lines that are missing or left are found at the line
/// behind.
pub fn hull_failure<R: Threads + Sync>(
    rt: &R,
    alloc: Global,
    problem: &Problem,
    cert: &Certificate,
    workers: u32,
) -> Result<Option<Failure>, AllocError>
    requires few { vec_len cert.now.sizes + vec_len cert.now.shells + vec_len cert.now.boxes < 2 ^ 32 - 5 }
    ensures { IfOk result (λ found. found ≡ option_or (shell_failure (plain_problem problem.now) (plain_certificate cert.now))
        (box_failure (plain_problem problem.now) (plain_certificate cert.now))) }
{
    let tries = try_objects(rt, alloc, problem, cert, workers)?;
    let first = FIRST_LINE + cert.sizes.len() as u32;
    let mut object = 0;
    let mut read = BoxesRead {
        passed: 0,
        failed: false,
    };
    for line in &cert.shells {
        let Some(tried) = tries.get(object as usize) else {
            return Ok(failed(first + object, CheckCause::ShellOf));
        };
        let Some(more) = read_from(problem, object, line, &cert.boxes, read, *tried) else {
            return Ok(failed(first + object, CheckCause::ShellOf));
        };
        read = more;
        object += 1;
    }
    if (object as usize) < problem.tracks.as_slice().len() {
        return Ok(failed(first + object, CheckCause::ShellOf));
    }
    Ok(failure_of_boxes(first + object, &cert.boxes, read))
}

/// The place of the first line of boxes of an object or of one behind it, if the lines are in order.
fn first_of(object: u32, lines: &[BoxLine]) -> usize
    ensures { result ≤ length lines.now }
{
    lines.partition_point(|line| line.object < object)
}

/// What is read of an object from where the lines of its boxes begin if all are in order.
fn read_alone(problem: &Problem, object: u32, line: &ShellLine, boxes: &[BoxLine]) -> ObjectRead
    ensures { IsObjectRead problem.now object line.now boxes.now result }
{
    let from = first_of(object, boxes);
    let read = BoxesRead {
        passed: from,
        failed: false,
    };
    let more = read_object(problem, object, line, boxes, read);
    ObjectRead { from, more }
}

/// The same of each object that has a line, by as many threads as there are workers: each takes the next object. A line behind the last
/// object's is not tried, so that what is kept grows with the objects however many lines there are.
fn try_objects<R: Threads + Sync>(
    rt: &R,
    alloc: Global,
    problem: &Problem,
    cert: &Certificate,
    workers: u32,
) -> Result<Vec<ObjectRead>, AllocError>
    requires few { length cert.now.shells.items < 2 ^ 32 }
    ensures { IfOk result (λ tries. AreObjectsRead problem.now cert.now.shells.items cert.now.boxes.items tries.items) }
{
    let attempt = |object: usize| -> ObjectRead
        requires { (object < length cert.now.shells.items) × (length cert.now.shells.items < 2 ^ 32) }
        ensures { (d : ShellLine) → IsObjectRead problem.entry.now object (get_or cert.entry.now.shells.items object d) cert.entry.now.boxes.items result }
    { read_alone(problem, object as u32, &cert.shells[object], &cert.boxes) };
    let count = cert.shells.len().min(problem.tracks.as_slice().len());
    let tries = map_dealt(rt, alloc, count, workers as usize, &Nobody, &attempt)?;
    Ok(tries)
}

/// What is read of boxes with those of an object, as below, which may be what was tried.
fn read_from(
    problem: &Problem,
    object: u32,
    line: &ShellLine,
    boxes: &[BoxLine],
    read: BoxesRead,
    tried: ObjectRead,
) -> Option<BoxesRead>
    requires place { read.passed ≤ length boxes.now }
    requires tried { IsObjectRead problem.now object line.now boxes.now tried }
    ensures none { IfNone result (fits_at (is_shell_line problem.now.window.first.micros problem.now.window.last.micros)
        (enumerate_from 0 (map plain_track problem.now.tracks)) object line.now ≡ false) }
    ensures some { IfSome result (λ more. fits_at (is_shell_line problem.now.window.first.micros problem.now.window.last.micros)
        (enumerate_from 0 (map plain_track problem.now.tracks)) object line.now ≡ true) }
    ensures place { IfSome result (λ more. more.passed ≤ length boxes.now) }
    ensures on { IfSome result (IsReadOn (plain_problem problem.now) object (map plain_box_line boxes.now) read) }
{
    if read.failed {
        return read_object(problem, object, line, boxes, read);
    }
    if tried.from == read.passed {
        return tried.more;
    }
    read_object(problem, object, line, boxes, read)
}

/// The first line of boxes that fails, where the lines of all objects were read.
fn failure_of_boxes(first: u32, lines: &[BoxLine], read: BoxesRead) -> Option<Failure>
    requires few { first + length lines.now < 2 ^ 32 }
    requires place { read.passed ≤ length lines.now }
    ensures { (case : PlainProblem) → result ≡ fails_behind case first [] (map plain_box_line lines.now) read }
{
    if read.failed || read.passed < lines.len() {
        return failed(first + read.passed as u32, CheckCause::BoxOf);
    }
    None
}

/// What is read of boxes with those of an object, where a line has the object's shell. None where it has not.
fn read_object(
    problem: &Problem,
    object: u32,
    line: &ShellLine,
    boxes: &[BoxLine],
    read: BoxesRead,
) -> Option<BoxesRead>
    requires place { read.passed ≤ length boxes.now }
    ensures none { IfNone result (fits_at (is_shell_line problem.now.window.first.micros problem.now.window.last.micros)
        (enumerate_from 0 (map plain_track problem.now.tracks)) object line.now ≡ false) }
    ensures some { IfSome result (λ more. fits_at (is_shell_line problem.now.window.first.micros problem.now.window.last.micros)
        (enumerate_from 0 (map plain_track problem.now.tracks)) object line.now ≡ true) }
    ensures place { IfSome result (λ more. more.passed ≤ length boxes.now) }
    ensures on { IfSome result (IsReadOn (plain_problem problem.now) object (map plain_box_line boxes.now) read) }
{
    let track = problem.tracks.as_slice().get(object as usize)?;
    if line.object != object {
        return None;
    }
    match line.shell {
        None => {
            if has_state(track, problem.window) {
                None
            } else {
                Some(read)
            }
        }
        Some(shell) => {
            let course = Course {
                problem,
                track,
                shell,
            };
            read_course(&course, object, boxes, read)
        }
    }
}

/// The same, of an object whose line has a shell.
fn read_course(
    course: &Course,
    object: u32,
    boxes: &[BoxLine],
    read: BoxesRead,
) -> Option<BoxesRead>
    requires object { slice_get (map plain_track course.now.problem.now.tracks) object ≡ Some (plain_track course.now.track.now) }
    requires place { read.passed ≤ length boxes.now }
    ensures none { IfNone result (is_shell_over (plain_track course.now.track.now) course.now.problem.now.window.first.micros
        course.now.problem.now.window.last.micros (Some course.now.shell) ≡ false) }
    ensures some { IfSome result (λ more. is_shell_over (plain_track course.now.track.now) course.now.problem.now.window.first.micros
        course.now.problem.now.window.last.micros (Some course.now.shell) ≡ true) }
    ensures place { IfSome result (λ more. more.passed ≤ length boxes.now) }
    ensures on { IfSome result (IsReadOn (plain_problem course.now.problem.now) object (map plain_box_line boxes.now) read) }
{
    let mut walk = Walk::new(course)?;
    let more = read_on(course, object, boxes, read, &mut walk);
    if walk.shows_all(course) {
        Some(more)
    } else {
        None
    }
}

/// What is read of boxes with those of an object, which are left where a line before them failed.
fn read_on(
    course: &Course,
    object: u32,
    boxes: &[BoxLine],
    read: BoxesRead,
    walk: &mut Walk,
) -> BoxesRead
    requires object { slice_get (map plain_track course.now.problem.now.tracks) object ≡ Some (plain_track course.now.track.now) }
    requires place { read.passed ≤ length boxes.now }
    requires walks { IsWalk course.now walk.old }
    ensures place { result.passed ≤ length boxes.now }
    ensures on { IsReadOn (plain_problem course.now.problem.now) object (map plain_box_line boxes.now) read result }
    ensures walks { IsWalk course.now walk.new }
{
    if read.failed {
        return read;
    }
    read_boxes(course, object, boxes, read.passed, walk)
}

/// Whether a track has a state in a window.
pub(crate) fn has_state(track: &Track, window: Window) -> bool
    ensures { result ≡ has_state_between (plain_track track.now) window.first.micros window.last.micros }
{
    next_run(track, window.first, window.last).is_some()
}
