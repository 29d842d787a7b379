//! The lines of boxes.
ghost use Rattle.std.specs.Prelude.{◌≡◌, ◌+◌, ◌-◌, ◌^◌, ◌<◌, ◌≤◌, ◌∷◌, ◌==◌, ◌&&◌, IsTrue, Some, drop, length, map, nat_le, slice_get};
ghost use Rattle.std.specs.List.{list_all, range_with_len};
ghost use Rattle.cj_track.specs.Tracks.{plain_track};
ghost use Rattle.cj_case.specs.Problems.{plain_problem};
ghost use Rattle.cj_case.specs.Boxes.{plain_box};
ghost use Rattle.cj_cert.specs.Certificates.{plain_box_line};
ghost use Rattle.cj_cert.specs.Listed.{slots_of_line};
ghost use Rattle.cj_checker.specs.BoxesRead.{IsReadOf};
ghost use Rattle.cj_checker.specs.Places.{places_from};
ghost use Rattle.cj_checker.specs.Tests.{is_box_line as the_test, is_in_box};
ghost use Rattle.cj_checker.specs.Walks.{IsWalk};

use crate::boxes_read::BoxesRead;
use crate::course::Course;
use crate::hulls_inside::are_hulls_in;
use crate::places::{Place, next_slot};
use crate::walk::Walk;
use cj_case::{slot_count, slot_window};
use cj_cert::BoxLine;
use cj_hermite::Hint;

/// Reads the lines of an object's boxes, the first of which is at a place. The next one that is read fails where it does not have the
/// next slots in which the object has a state, or lets one of its hulls out. Lines that are missing are found at the line behind.
pub(crate) fn read_boxes(
    course: &Course,
    object: u32,
    lines: &[BoxLine],
    at: usize,
    walk: &mut Walk,
) -> BoxesRead
    requires object { slice_get (map plain_track course.now.problem.now.tracks) object ≡ Some (plain_track course.now.track.now) }
    requires place { at ≤ length lines.now }
    requires walks { IsWalk course.now walk.old }
    ensures place { result.passed ≤ length lines.now }
    ensures read { IsReadOf (plain_problem course.now.problem.now) object (map plain_box_line lines.now) at result }
    ensures walks { IsWalk course.now walk.new }
{
    let mut hint = Hint::default();
    let mut slot = 0;
    let mut passed = at;
    while passed < lines.len() {
        let line = &lines[passed];
        let Some(found) = next_slot(course.problem, course.track, slot, &mut hint) else {
            return BoxesRead {
                passed,
                failed: false,
            };
        };
        let place = Place {
            object,
            slot: found,
        };
        if !is_box_line(course, place, line, walk) {
            return BoxesRead {
                passed,
                failed: true,
            };
        }
        slot = line.last + 1;
        passed += 1;
    }
    let missing = next_slot(course.problem, course.track, slot, &mut hint);
    BoxesRead {
        passed,
        failed: missing.is_some(),
    }
}

/// Whether a line has the slots of an object from its next place on, and its box holds the hulls in each of them.
fn is_box_line(course: &Course, place: Place, line: &BoxLine, walk: &mut Walk) -> bool
    requires object { slice_get (map plain_track course.now.problem.now.tracks) place.object ≡ Some (plain_track course.now.track.now) }
    requires next { places_from (plain_problem course.now.problem.now) place.object place.slot
        ≡ (place.object, place.slot) ∷ places_from (plain_problem course.now.problem.now) place.object (place.slot + 1) }
    requires walks { IsWalk course.now walk.old }
    ensures value { result ≡ the_test (plain_problem course.now.problem.now)
        (places_from (plain_problem course.now.problem.now) place.object place.slot) (plain_box_line line.now) }
    // The places behind it.
    ensures behind { IsTrue result → drop (length (slots_of_line (plain_box_line line.now)))
        (places_from (plain_problem course.now.problem.now) place.object place.slot)
        ≡ places_from (plain_problem course.now.problem.now) place.object (line.now.last + 1) }
    ensures inside { IsTrue result → line.now.last < 2 ^ 32 - 1 }
    ensures walks { IsWalk course.now walk.new }
{
    if !begins_at(line, place) {
        return false;
    }
    holds_hulls(course, line, walk)
}

/// Whether a line begins at a place.
fn begins_at(line: &BoxLine, place: Place) -> bool
    ensures { result ≡ ((line.now.object == place.object) && (line.now.first == place.slot)) }
{
    line.object == place.object && line.first == place.slot
}

/// Whether a track has a state in each slot of a line, of which there is one at least, and its hulls lie in the line's box.
fn holds_hulls(course: &Course, line: &BoxLine, walk: &mut Walk) -> bool
    requires { IsWalk course.now walk.old }
    ensures value { result ≡ (nat_le line.now.first line.now.last
        && list_all (is_in_box (plain_problem course.now.problem.now) (plain_track course.now.track.now) (plain_box line.now.area))
        (range_with_len line.now.first (line.now.last + 1 - line.now.first))) }
    ensures inside { IsTrue result → line.now.last < 2 ^ 32 - 1 }
    ensures walks { IsWalk course.now walk.new }
{
    if line.last < line.first || slot_count(course.problem.window) <= line.last {
        return false;
    }
    for slot in line.first..line.last + 1 {
        if !is_in_box(course, slot, line, walk) {
            return false;
        }
    }
    true
}

/// Whether a track has a state in a slot, and its hulls there lie in the line's box.
fn is_in_box(course: &Course, slot: u32, line: &BoxLine, walk: &mut Walk) -> bool
    requires { IsWalk course.now walk.old }
    ensures value { result ≡ is_in_box (plain_problem course.now.problem.now) (plain_track course.now.track.now) (plain_box line.now.area) slot }
    ensures walks { IsWalk course.now walk.new }
{
    match slot_window(course.problem.window, slot) {
        None => false,
        Some(ticks) => are_hulls_in(course, ticks, &line.area, walk) == Some(true),
    }
}
