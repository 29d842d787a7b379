//! Whether the hulls of a track lie in a box.
ghost use Rattle.std.specs.Prelude.{◌≡◌, ◌≤◌, IfNone, IfSome};
ghost use Rattle.std.specs.List.{list_all};
ghost use Rattle.cj_track.specs.Tracks.{plain_track};
ghost use Rattle.cj_hermite.specs.Walks.{HasNone};
ghost use Rattle.cj_bezier.specs.Parts.{hulls_of};
ghost use Rattle.cj_case.specs.Boxes.{plain_box};
ghost use Rattle.cj_checker.specs.Tests.{is_hull_in as lies_in};
ghost use Rattle.cj_checker.specs.Walks.{IsWalk};

use crate::bound::is_hull_in;
use crate::course::Course;
use crate::walk::Walk;
use cj_base::{Tick, Window};
use cj_case::AxisBox;

/// Whether the hulls of all parts of a track at some ticks of the window lie in a box. None where the track has no state there.
pub(crate) fn are_hulls_in(
    course: &Course,
    ticks: Window,
    area: &AxisBox,
    walk: &mut Walk,
) -> Option<bool>
    requires walks { IsWalk course.now walk.old }
    requires inside { ticks.last.micros ≤ course.now.problem.now.window.last.micros }
    ensures none { IfNone result (HasNone (plain_track course.now.track.now) ticks.first.micros ticks.last.micros) }
    ensures some { IfSome result (λ inside. ¬ HasNone (plain_track course.now.track.now) ticks.first.micros ticks.last.micros) }
    ensures value { IfSome result (λ inside. inside
        ≡ list_all (lies_in (plain_box area.now)) (hulls_of (plain_track course.now.track.now) ticks.first.micros ticks.last.micros)) }
    ensures walks { IsWalk course.now walk.new }
{
    let mut part = walk.part_in(course, ticks.first, ticks.last)?;
    while part.last.micros < ticks.last.micros {
        let inside = is_hull_in(area, &part.hull);
        if !inside {
            return Some(false);
        }
        let from = Tick {
            micros: part.last.micros + 1,
        };
        let Some(next) = walk.part_in(course, from, ticks.last) else {
            return Some(true);
        };
        part = next;
    }
    let last_inside = is_hull_in(area, &part.hull);
    Some(last_inside)
}
