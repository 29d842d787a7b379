//! The box of a track in a slot.
ghost use Rattle.std.specs.Prelude.{◌≡◌, ℕ, ◌≤◌, IfNone, IfSome, option_map};
ghost use Rattle.cj_track.specs.Tracks.{plain_track};
ghost use Rattle.cj_interval.specs.Sizes.{IsWithin};
ghost use Rattle.cj_hermite.specs.Boxes.{IsBoxWithin};
ghost use Rattle.cj_hermite.specs.Pieces.{piece_holding, curve_of_piece};
ghost use Rattle.cj_case.specs.Slots.{slot_first, slot_last};
ghost use Rattle.cj_hermite.specs.Walks.{HasNone};
ghost use Rattle.cj_bezier.specs.Parts.{AreInTime};
ghost use Rattle.cj_bezier.specs.Sizes.{HULL_REACH};
ghost use Rattle.cj_bezier.specs.SlotBoxes.{IsBoxOf, IsPlaceIn, box_of};
ghost use Rattle.cj_case.specs.Boxes.{plain_box};
ghost use Rattle.cj_walk.specs.TrackWalks.{IsWalk};
ghost use Rattle.cj_bezier.specs.JoinedBoxes.{reaches_of_spans};

use crate::joined_boxes::{box_of_hull, join_boxes};
use cj_base::{Tick, Window};
use cj_case::{AxisBox, slot_window};
use cj_hermite::Box3;
use cj_track::Vec3;
use cj_walk::TrackWalk;

/// The smallest box round the hulls of all parts of a track in a window.
fn box_round(walk: &mut TrackWalk<'_>, window: Window) -> Option<Box3>
    requires walks { IsWalk walk.old }
    requires inside { window.last.micros ≤ walk.old.window.last.micros }
    ensures value { option_map reaches_of_spans result ≡ box_of (plain_track walk.old.track.now) window.first.micros window.last.micros }
    ensures within { IfSome result (IsBoxWithin HULL_REACH) }
    ensures time { AreInTime (plain_track walk.old.track.now) window.first.micros window.last.micros }

    ensures track { walk.new.track.now ≡ walk.old.track.now }
    ensures window { walk.new.window ≡ walk.old.window }
    ensures walks { IsWalk walk.new }
{
    let mut part = walk.part_in(window.first, window.last)?;
    let mut area = box_of_hull(&part.hull);
    while part.last.micros < window.last.micros {
        let from = Tick {
            micros: part.last.micros + 1,
        };
        let Some(next) = walk.part_in(from, window.last) else {
            break;
        };
        area = join_boxes(area, box_of_hull(&next.hull));
        part = next;
    }
    Some(area)
}

/// An end of a box round hulls.
fn coordinate(end: i128) -> i64
    requires { IsWithin HULL_REACH end }
    ensures { result ≡ end }
{
    end as i64
}

/// A box by its corners.
fn by_corners(area: Box3) -> AxisBox
    requires { IsBoxWithin HULL_REACH area }
    ensures { plain_box result ≡ reaches_of_spans area }
{
    AxisBox {
        least: Vec3 {
            x: coordinate(area.x.lo),
            y: coordinate(area.y.lo),
            z: coordinate(area.z.lo),
        },
        most: Vec3 {
            x: coordinate(area.x.hi),
            y: coordinate(area.y.hi),
            z: coordinate(area.z.hi),
        },
    }
}

/// The smallest box in nm round the hulls of the walk's track in a slot of its window, if it has a state there. The walk goes on to the slot.
pub fn slot_box(walk: &mut TrackWalk<'_>, slot: u32) -> Option<AxisBox>
    requires { IsWalk walk.old }
    ensures value { IfSome result (IsBoxOf (plain_track walk.old.track.now) (slot_first walk.old.window.first.micros slot) (slot_last walk.old.window.first.micros walk.old.window.last.micros slot)) }
    ensures none { IfNone result (HasNone (plain_track walk.old.track.now) (slot_first walk.old.window.first.micros slot) (slot_last walk.old.window.first.micros walk.old.window.last.micros slot)) }
    ensures some { IfSome result (λ area. ¬ HasNone (plain_track walk.old.track.now) (slot_first walk.old.window.first.micros slot) (slot_last walk.old.window.first.micros walk.old.window.last.micros slot)) }

    ensures exact { option_map plain_box result ≡ box_of (plain_track walk.old.track.now) (slot_first walk.old.window.first.micros slot) (slot_last walk.old.window.first.micros walk.old.window.last.micros slot) }

    // At each tick of the slot with a state the place lies in the box.
    ensures holds { IfSome result (λ area. (m : ℕ) → slot_first walk.old.window.first.micros slot ≤ m → m ≤ slot_last walk.old.window.first.micros walk.old.window.last.micros slot
        → IfSome (piece_holding (plain_track walk.old.track.now) m) (λ x. IsPlaceIn (curve_of_piece x) m (plain_box area))) }

    // A track's pieces come in order of time, as the laws of hulls ask.
    ensures time { AreInTime (plain_track walk.old.track.now) (slot_first walk.old.window.first.micros slot) (slot_last walk.old.window.first.micros walk.old.window.last.micros slot) }

    ensures track { walk.new.track.now ≡ walk.old.track.now }
    ensures window { walk.new.window ≡ walk.old.window }
    ensures walks { IsWalk walk.new }
{
    let ticks = slot_window(walk.window, slot)?;
    let area = box_round(walk, ticks)?;
    Some(by_corners(area))
}
