//! The box of a track in a slot, by the walk that shows its shell.
ghost use Rattle.std.specs.Prelude.{◌≡◌, ◌≤◌, IfSome, option_map};
ghost use Rattle.cj_track.specs.Tracks.{plain_track};
ghost use Rattle.cj_interval.specs.Sizes.{IsWithin};
ghost use Rattle.cj_hermite.specs.Boxes.{IsBoxWithin};
ghost use Rattle.cj_case.specs.Boxes.{plain_box};
ghost use Rattle.cj_case.specs.Slots.{slot_first, slot_last};
ghost use Rattle.cj_bezier.specs.Sizes.{HULL_REACH};
ghost use Rattle.cj_bezier.specs.SlotBoxes.{box_of};
ghost use Rattle.cj_bezier.specs.JoinedBoxes.{reaches_of_spans};
ghost use Rattle.cj_checker.specs.Walks.{IsWalk};

use crate::course::Course;
use crate::hull_boxes::{box_of_hull, join_boxes};
use crate::walk::Walk;
use cj_base::{Tick, Window};
use cj_case::{AxisBox, slot_window};
use cj_hermite::Box3;
use cj_track::Vec3;

/// The least box round the hulls of all parts of a track at some ticks of the window. None where the track has no state there.
fn box_round(course: &Course, ticks: Window, walk: &mut Walk) -> Option<Box3>
    requires walks { IsWalk course.now walk.old }
    requires inside { ticks.last.micros ≤ course.now.problem.now.window.last.micros }
    ensures value { option_map reaches_of_spans result ≡ box_of (plain_track course.now.track.now) ticks.first.micros ticks.last.micros }
    ensures within { IfSome result (IsBoxWithin HULL_REACH) }
    ensures walks { IsWalk course.now walk.new }
{
    let mut part = walk.part_in(course, ticks.first, ticks.last)?;
    let mut area = box_of_hull(&part.hull);
    while part.last.micros < ticks.last.micros {
        let from = Tick {
            micros: part.last.micros + 1,
        };
        let Some(next) = walk.part_in(course, from, ticks.last) else {
            break;
        };
        area = join_boxes(area, box_of_hull(&next.hull));
        part = next;
    }
    Some(area)
}

/// An end of a box round hulls.
fn coordinate(end: i128) -> i64
    requires { IsWithin HULL_REACH end }
    ensures { result ≡ end }
{
    end as i64
}

/// A box by its corners.
fn by_corners(area: Box3) -> AxisBox
    requires { IsBoxWithin HULL_REACH area }
    ensures { plain_box result ≡ reaches_of_spans area }
{
    AxisBox {
        least: Vec3 {
            x: coordinate(area.x.lo),
            y: coordinate(area.y.lo),
            z: coordinate(area.z.lo),
        },
        most: Vec3 {
            x: coordinate(area.x.hi),
            y: coordinate(area.y.hi),
            z: coordinate(area.z.hi),
        },
    }
}

/// The least box in nm round the hulls of a track in a slot of the window, if it has a state there. The walk goes on to the slot.
pub(crate) fn box_of_hulls(course: &Course, slot: u32, walk: &mut Walk) -> Option<AxisBox>
    requires { IsWalk course.now walk.old }
    ensures value { option_map plain_box result ≡ box_of (plain_track course.now.track.now)
        (slot_first course.now.problem.now.window.first.micros slot)
        (slot_last course.now.problem.now.window.first.micros course.now.problem.now.window.last.micros slot) }
    ensures walks { IsWalk course.now walk.new }
{
    let ticks = slot_window(course.problem.window, slot)?;
    let area = box_round(course, ticks, walk)?;
    Some(by_corners(area))
}
