//! The shells and boxes of objects, by several threads that take the next object each.
ghost use Rattle.std.specs.Prelude.{◌≡◌, ℕ, ◌<◌, ◌++◌, Some, None, All, IfOk, IfSome, OnOk, get_or, length, map, slice_get};
ghost use Rattle.cj_track.specs.declared.track.Track.{Track};
ghost use Rattle.cj_track.specs.Tracks.{plain_track};
ghost use Rattle.cj_bezier.specs.Shells.{shell_of};
ghost use Rattle.cj_case.specs.Boxes.{plain_boxes};
ghost use Rattle.cj_bezier.specs.AllBoxes.{boxes_over};
ghost use Rattle.cj_walk.specs.TrackWalks.{IsWalk};
ghost use Rattle.cj_candidates.specs.MeasuredObjects.{AreTheirs, IsInOwnBoxes, IsInOwnShell, IsMeasured, IsMeasuredAt};

use crate::measured_object::MeasuredObject;
use cj_base::Window;
use cj_case::{AxisBox, BySlot, Measured, Shell};
use cj_grid::slot_box;
use cj_io::{Gate, Stage};
use cj_sieve::shell;
use cj_threads::{Nobody, all_made, map_dealt};
use cj_track::Track;
use cj_walk::TrackWalk;
use std::alloc::{AllocError, Global};
use std::thread::Threads;

/// Appends the boxes of a walk's track in so many slots.
fn append_boxes(
    walk: &mut TrackWalk<'_>,
    slots: u32,
    boxes: &mut Vec<Option<AxisBox>>,
) -> Result<(), AllocError>
    requires { IsWalk walk.old }
    ensures value { OnOk result (plain_boxes boxes.new.items
        ≡ plain_boxes boxes.old.items ++ boxes_over (plain_track walk.old.track.now) walk.old.window.first.micros walk.old.window.last.micros slots) }
    ensures hold { OnOk result (IsInOwnBoxes walk.old.window.first.micros walk.old.window.last.micros slots (plain_track walk.old.track.now)) }

    ensures track { walk.new.track.now ≡ walk.old.track.now }
    ensures window { walk.new.window ≡ walk.old.window }
    ensures walks { IsWalk walk.new }
{
    for slot in 0..slots {
        boxes.push(slot_box(walk, slot))?;
    }
    Ok(())
}

/// The shell of an object in a window, if it has a state there. Its boxes in so many slots are appended.
fn measure(
    track: &Track,
    window: Window,
    slots: u32,
    boxes: &mut Vec<Option<AxisBox>>,
) -> Result<Option<Shell>, AllocError>
    ensures shell { IfOk result (λ shell. shell ≡ shell_of (plain_track track.now) window.first.micros window.last.micros) }
    ensures in_shell { OnOk result (IsInOwnShell window.first.micros window.last.micros (plain_track track.now)) }
    ensures boxes { OnOk result (plain_boxes boxes.new.items
        ≡ plain_boxes boxes.old.items ++ boxes_over (plain_track track.now) window.first.micros window.last.micros slots) }
    ensures in_boxes { OnOk result (IsInOwnBoxes window.first.micros window.last.micros slots (plain_track track.now)) }
{
    let Some(mut walk) = TrackWalk::new(track, window) else {
        boxes.resize(boxes.len() + slots as usize, None)?;
        return Ok(None);
    };
    append_boxes(&mut walk, slots, boxes)?;
    Ok(Some(shell(walk)))
}

/// An object by itself.
fn measure_object(
    alloc: Global,
    track: &Track,
    window: Window,
    slots: u32,
) -> Result<MeasuredObject, AllocError>
    ensures { IfOk result (IsMeasured (plain_track track.now) window.first.micros window.last.micros slots) }
{
    let mut boxes = Vec::with_capacity(alloc, slots as usize)?;
    let shell = measure(track, window, slots, &mut boxes)?;
    Ok(MeasuredObject { shell, boxes })
}

/// Objects in one, each with its row.
fn in_one(alloc: Global, objects: Vec<MeasuredObject>, slots: u32) -> Result<Measured, AllocError>
    requires { All (λ one. length one.boxes.items ≡ slots) objects.items }
    ensures shells { IfOk result (λ all. all.shells.items ≡ map (λ one. one.shell) objects.items) }
    ensures boxes { IfOk result (λ all. all.boxes ≡ record { rows = map (λ one. one.boxes.items) objects.items; slots = slots }) }
{
    let mut shells = Vec::with_capacity(alloc, objects.len())?;
    let mut boxes = BySlot::new(alloc, slots);
    for one in objects {
        shells.push(one.shell)?;
        boxes.push(one.boxes)?;
    }
    Ok(Measured { shells, boxes })
}

/// The shells of objects in a window, and their boxes in so many of its slots, by as many threads as there are workers: each takes the next
/// object and makes its row. The gate is told of each.
pub fn measure_objects<R: Threads + Sync, G: Gate + Sync>(
    rt: &R,
    alloc: Global,
    gate: &G,
    tracks: &[Track],
    window: Window,
    slots: u32,
    workers: u32,
) -> Result<Measured, AllocError>
    ensures { IfOk result (λ all. AreTheirs tracks.now window.first.micros window.last.micros slots all.shells.items all.boxes) }
{
    gate.begin(Stage::Objects, tracks.len() as u64);
    let measure = |object: usize| -> Result<MeasuredObject, AllocError>
        requires { object < length tracks.now }
        ensures { (d : Track) → IfOk result (IsMeasured (plain_track (get_or tracks.entry.now object d)) window.first.micros window.last.micros slots) }
    {
        let made = measure_object(alloc, &tracks[object], window, slots)?;
        gate.advance(Stage::Objects, 1);
        Ok(made)
    };
    let made = map_dealt(rt, alloc, tracks.len(), workers as usize, &Nobody, &measure)?;
    let objects = all_made(alloc, made)?;
    in_one(alloc, objects, slots)
}

/// The shell and the boxes that an object has among those that were measured.
fn copied(alloc: Global, from: &Measured, object: u32) -> Result<MeasuredObject, AllocError>
    requires shells { object < length from.now.shells.items }
    requires boxes { object < length from.now.boxes.rows }
    ensures shell { IfOk result (λ one. slice_get from.now.shells.items object ≡ Some one.shell) }
    ensures boxes { IfOk result (λ one. slice_get from.now.boxes.rows object ≡ Some one.boxes.items) }
{
    let shell = from.shells[object as usize];
    let boxes = Vec::from_slice(alloc, from.boxes.of_object(object))?;
    Ok(MeasuredObject { shell, boxes })
}

/// An object, which may have a place among those that were measured.
fn measured_at(
    alloc: Global,
    track: &Track,
    window: Window,
    slots: u32,
    from: &Measured,
    place: Option<u32>,
) -> Result<MeasuredObject, AllocError>
    requires { IfSome place (λ p. IsMeasuredAt (plain_track track.now) window.first.micros window.last.micros slots from.now p) }
    ensures { IfOk result (IsMeasured (plain_track track.now) window.first.micros window.last.micros slots) }
{
    match place {
        Some(place) => copied(alloc, from, place),
        None => measure_object(alloc, track, window, slots),
    }
}

/// The shells of objects in a window, and their boxes in so many of its slots, by as many threads as there are workers. Those that have a place among
/// objects that were measured are copied from there. The gate is told of each.
pub fn measure_some<R: Threads + Sync, G: Gate + Sync>(
    rt: &R,
    alloc: Global,
    gate: &G,
    tracks: &[Track],
    window: Window,
    slots: u32,
    from: &Measured,
    places: &[Option<u32>],
    workers: u32,
) -> Result<Measured, AllocError>
    requires long { length places.now ≡ length tracks.now }
    requires measured { (i : ℕ) (d : Track) → i < length tracks.now → IfSome (get_or places.now i None)
        (λ p. IsMeasuredAt (plain_track (get_or tracks.now i d)) window.first.micros window.last.micros slots from.now p) }
    ensures { IfOk result (λ all. AreTheirs tracks.now window.first.micros window.last.micros slots all.shells.items all.boxes) }
{
    gate.begin(Stage::Objects, tracks.len() as u64);
    let measure = |object: usize| -> Result<MeasuredObject, AllocError>
        requires { (object < length tracks.now) × (object < length places.now)
            × ((d : Track) → IfSome (get_or places.now object None)
            (λ p. IsMeasuredAt (plain_track (get_or tracks.now object d)) window.first.micros window.last.micros slots from.now p)) }
        ensures { (d : Track) → IfOk result (IsMeasured (plain_track (get_or tracks.entry.now object d)) window.first.micros window.last.micros slots) }
    {
        let made = measured_at(alloc, &tracks[object], window, slots, from, places[object])?;
        gate.advance(Stage::Objects, 1);
        Ok(made)
    };
    let made = map_dealt(rt, alloc, tracks.len(), workers as usize, &Nobody, &measure)?;
    let objects = all_made(alloc, made)?;
    in_one(alloc, objects, slots)
}

/// The shells of objects and their boxes by the thread that calls, which tells no gate.
pub fn measure_in_turn(
    alloc: Global,
    tracks: &[Track],
    window: Window,
    slots: u32,
) -> Result<Measured, AllocError>
    ensures { IfOk result (λ all. AreTheirs tracks.now window.first.micros window.last.micros slots all.shells.items all.boxes) }
{
    let mut objects = Vec::with_capacity(alloc, tracks.len())?;
    for track in tracks {
        objects.push(measure_object(alloc, track, window, slots)?)?;
    }
    in_one(alloc, objects, slots)
}
