//! How far the objects of a slot reach along an axis, and along which axis the fewest meet those with wide boxes.
ghost use Rattle.std.specs.Prelude.{◌≡◌, ℕ, ◌+◌, ◌^◌, ◌<◌, ◌≤◌, pos, ◌+ℤ◌, ◌-ℤ◌, ◌≤ℤ◌, length, All, IfOk, OnOk, slice_index};
ghost use Rattle.std.specs.List.{Contains};
ghost use Rattle.cj_case.specs.Boxes.{plain_box};
ghost use Rattle.cj_grid.specs.Among.{wide_among};
ghost use Rattle.cj_grid.specs.Sweeps.{AreLaidOut, Exist, HasReach, IsInOrder, IsNoLonger, narrow_among, reach_of, side};

use crate::axis::Axis;
use crate::reach::Reach;
use crate::slot_objects::SlotObjects;
use cj_case::AxisBox;
use std::alloc::{AllocError, Global};

/// The reaches of the objects with wide boxes along an axis, and those of the other objects with boxes, each in order of where they begin.
#[derive(Drop)]
pub struct Reaches {
    pub wide: Vec<Reach>,
    pub others: Vec<Reach>,
}

/// The ends of a box along an axis.
fn ends(axis: Axis, area: &AxisBox) -> (i64, i64)
    ensures least { result.0 ≡ (side axis (plain_box area.now)).least }
    ensures most { result.1 ≡ (side axis (plain_box area.now)).most }
{
    match axis {
        Axis::X => (area.least.x, area.most.x),
        Axis::Y => (area.least.y, area.most.y),
        Axis::Z => (area.least.z, area.most.z),
    }
}

/// Where a reach begins, moved back by a size.
fn begin(least: i64, size: u64) -> i128
    ensures { result ≡ least -ℤ pos size }
{
    i128::from(least) - i128::from(size)
}

/// Where a reach ends, moved on by a size and the threshold together.
fn finish(most: i64, beyond: u64) -> i128
    ensures { result ≡ most +ℤ pos beyond }
{
    i128::from(most) + i128::from(beyond)
}

/// Where a reach of this length begins at the earliest that ends where another begins, moved back by its size.
fn begin_early(least: i64, size: u64, longest: u128) -> i128
    requires { longest ≤ 10 ^ 20 }
    ensures { result ≡ least -ℤ pos (size + longest) }
{
    i128::from(least) - (u128::from(size) + longest) as i128
}

/// The reach of an object along an axis, where others are at most so long.
fn reach_along(
    objects: &SlotObjects<'_>,
    axis: Axis,
    longest: u128,
    object: u32,
    area: &AxisBox,
) -> Reach
    requires exists { object < length objects.now.boxes.now }
    requires few { longest ≤ 10 ^ 20 }
    ensures { result ≡ reach_of objects.now.thr (slice_index objects.now.sizes.now object) longest object (side axis (plain_box area.now)) }
{
    let size = objects.sizes[object as usize];
    let (least, most) = ends(axis, area);
    Reach {
        low: begin(least, size),
        high: finish(most, size + objects.thr),
        earliest: begin_early(least, size, longest),
        object,
    }
}

/// Enters the reach of an object, where it has a box.
fn enter_object(
    objects: &SlotObjects<'_>,
    axis: Axis,
    longest: u128,
    object: u32,
    reaches: &mut Vec<Reach>,
) -> Result<(), AllocError>
    requires exists { object < length objects.now.boxes.now }
    requires few { longest ≤ 10 ^ 20 }
    ensures exist { OnOk result (Exist objects.now reaches.old.items → Exist objects.now reaches.new.items) }
    ensures kept { OnOk result ((reach : Reach) → Contains reaches.old.items reach → Contains reaches.new.items reach) }
    ensures entered { OnOk result (HasReach objects.now axis longest reaches.new.items object) }
    ensures few { OnOk result (length reaches.new.items ≤ length reaches.old.items + 1) }
{
    let Some(area) = &objects.boxes[object as usize] else {
        return Ok(());
    };
    reaches.push(reach_along(objects, axis, longest, object, area))?;
    Ok(())
}

/// The reaches of some objects along an axis, in order of where they begin.
fn enter(
    alloc: Global,
    objects: &SlotObjects<'_>,
    axis: Axis,
    longest: u128,
    some: &[u32],
) -> Result<Vec<Reach>, AllocError>
    requires exist { All (λ object. object < length objects.now.boxes.now) some.now }
    requires few { longest ≤ 10 ^ 20 }
    ensures exist { IfOk result (λ reaches. Exist objects.now reaches.items) }
    ensures entered { IfOk result (λ reaches. (object : ℕ) → Contains some.now object → HasReach objects.now axis longest reaches.items object) }
    ensures few { IfOk result (λ reaches. length reaches.items ≤ length some.now) }
    ensures order { IfOk result (λ reaches. IsInOrder reaches.items) }
{
    let mut reaches = Vec::with_capacity(alloc, some.len())?;
    for object in some {
        enter_object(objects, axis, longest, *object, &mut reaches)?;
    }
    reaches.sort_unstable();
    Ok(reaches)
}

/// How long a reach is, moved back by a size and on by the same and the threshold.
fn length_between(least: i64, most: i64, size: u64, thr: u64) -> u128
    ensures value { (most +ℤ pos (size + thr)) ≤ℤ ((least -ℤ pos size) +ℤ pos result) }
    ensures few { result ≤ 10 ^ 20 }
{
    u128::from(most.abs_diff(least)) + 2 * u128::from(size) + u128::from(thr)
}

/// How long the reach of an object is along an axis, or 0 where it has no box.
fn length_along(objects: &SlotObjects<'_>, axis: Axis, object: u32) -> u128
    requires exists { object < length objects.now.boxes.now }
    ensures value { IsNoLonger objects.now axis result object }
    ensures few { result ≤ 10 ^ 20 }
{
    let Some(area) = &objects.boxes[object as usize] else {
        return 0;
    };
    let (least, most) = ends(axis, area);
    length_between(least, most, objects.sizes[object as usize], objects.thr)
}

/// A length that no reach of some objects exceeds along an axis.
fn longest_along(objects: &SlotObjects<'_>, axis: Axis, some: &[u32]) -> u128
    requires exist { All (λ object. object < length objects.now.boxes.now) some.now }
    ensures value { (object : ℕ) → Contains some.now object → IsNoLonger objects.now axis result object }
    ensures few { result ≤ 10 ^ 20 }
{
    let mut longest = 0;
    for object in some {
        longest = length_along(objects, axis, *object).max(longest);
    }
    longest
}

/// Of others in order, those that begin where a reach does or behind.
fn begun_behind<'r>(reach: &Reach, others: &'r [Reach]) -> &'r [Reach]
    requires { IsInOrder others.now }
    ensures exist { (objects : SlotObjects) → Exist objects others.now → Exist objects result.now }
    ensures order { IsInOrder result.now }
    ensures few { length result.now ≤ length others.now }
    ensures kept { (other : Reach) → Contains others.now other → reach.now.low ≤ℤ other.low → Contains result.now other }
{
    let low = reach.low;
    let before = others.partition_point(|other| other.low < low);
    &others[before..]
}

/// Of others in order, those that begin at the earliest place for a reach or behind.
fn begun_late<'r>(reach: &Reach, others: &'r [Reach]) -> &'r [Reach]
    requires { IsInOrder others.now }
    ensures exist { (objects : SlotObjects) → Exist objects others.now → Exist objects result.now }
    ensures order { IsInOrder result.now }
    ensures few { length result.now ≤ length others.now }
    ensures kept { (other : Reach) → Contains others.now other → reach.now.earliest ≤ℤ other.low → Contains result.now other }
{
    let earliest = reach.earliest;
    let before = others.partition_point(|other| other.low < earliest);
    &others[before..]
}

/// Of others in order, those that begin where a reach ends or before.
fn begun_before<'r>(reach: &Reach, others: &'r [Reach]) -> &'r [Reach]
    requires { IsInOrder others.now }
    ensures exist { (objects : SlotObjects) → Exist objects others.now → Exist objects result.now }
    ensures few { length result.now ≤ length others.now }
    ensures kept { (other : Reach) → Contains others.now other → other.low ≤ℤ reach.now.high → Contains result.now other }
{
    let high = reach.high;
    let within = others.partition_point(|other| other.low <= high);
    &others[..within]
}

/// Of others in order, those that begin where a reach is.
pub fn begun_within<'r>(reach: &Reach, others: &'r [Reach]) -> &'r [Reach]
    requires { IsInOrder others.now }
    ensures exist { (objects : SlotObjects) → Exist objects others.now → Exist objects result.now }
    ensures few { length result.now ≤ length others.now }
    ensures kept { (other : Reach) → Contains others.now other → reach.now.low ≤ℤ other.low → other.low ≤ℤ reach.now.high → Contains result.now other }
{
    begun_before(reach, begun_behind(reach, others))
}

/// Of others in order, those that begin from the earliest place for a reach to its end.
pub fn begun_about<'r>(reach: &Reach, others: &'r [Reach]) -> &'r [Reach]
    requires { IsInOrder others.now }
    ensures exist { (objects : SlotObjects) → Exist objects others.now → Exist objects result.now }
    ensures few { length result.now ≤ length others.now }
    ensures kept { (other : Reach) → Contains others.now other → reach.now.earliest ≤ℤ other.low → other.low ≤ℤ reach.now.high → Contains result.now other }
{
    begun_before(reach, begun_late(reach, others))
}

/// How many times an object meets one with a wide box. Any number would do.
fn meetings(reaches: &Reaches) -> usize
    requires wide { IsInOrder reaches.now.wide.items }
    requires others { IsInOrder reaches.now.others.items }
{
    let mut count = 0usize;
    for reach in &reaches.wide {
        let wide = begun_within(reach, &reaches.wide).len();
        let others = begun_about(reach, &reaches.others).len();
        count = count.saturating_add(wide).saturating_add(others);
    }
    count
}

/// The reaches of objects with wide boxes, and of the others, along an axis.
fn enter_along(
    alloc: Global,
    objects: &SlotObjects<'_>,
    axis: Axis,
    wide: &[u32],
    others: &[u32],
) -> Result<Reaches, AllocError>
    requires wide { wide.now ≡ wide_among objects.now }
    requires others { others.now ≡ narrow_among objects.now }
    ensures { IfOk result (AreLaidOut objects.now) }
{
    let longest = longest_along(objects, axis, others);
    Ok(Reaches {
        wide: enter(alloc, objects, axis, longest, wide)?,
        others: enter(alloc, objects, axis, longest, others)?,
    })
}

/// The reaches of objects with wide boxes, and of the others, along the axis along which the fewest meet. Any axis would do.
pub fn lay_out(
    alloc: Global,
    objects: &SlotObjects<'_>,
    wide: &[u32],
    others: &[u32],
) -> Result<Reaches, AllocError>
    requires wide { wide.now ≡ wide_among objects.now }
    requires others { others.now ≡ narrow_among objects.now }
    ensures { IfOk result (AreLaidOut objects.now) }
{
    let mut best = enter_along(alloc, objects, Axis::X, wide, others)?;
    let mut fewest = meetings(&best);
    for axis in [Axis::Y, Axis::Z] {
        let reaches = enter_along(alloc, objects, axis, wide, others)?;
        let count = meetings(&reaches);
        if count < fewest {
            best = reaches;
            fewest = count;
        }
    }
    Ok(best)
}
