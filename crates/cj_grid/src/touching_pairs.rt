//! The pairs of objects whose boxes touch.
ghost use Rattle.std.specs.Prelude.{◌≡◌, ℕ, ◌+◌, ◌^◌, ◌<◌, ◌≤◌, map, filter, length, option_map, All, true, None, IfOk};
ghost use Rattle.std.specs.List.Sorted.{IsPermutation};
ghost use Rattle.cj_base.specs.Bounds.{MOST_OBJECTS};
ghost use Rattle.cj_case.specs.CaseLimits.{MAX_SIZE};
ghost use Rattle.cj_case.specs.Pairs.{HasPair, objects_of, pairs_of};
ghost use Rattle.cj_case.specs.Boxes.{plain_boxes};
ghost use Rattle.cj_bezier.specs.SlotBoxes.{touch_between};
ghost use Rattle.cj_grid.specs.Among.{touch_among, entries_among, bound_among, TouchAmong};
ghost use Rattle.cj_grid.specs.Buckets.{step_bound};
ghost use Rattle.cj_grid.specs.Found.{AreInOrder, is_again, unrepeated};

use crate::bucket_pairs::append_shared;
use crate::entries::{Entry, enter_objects, wide_objects};
use crate::slot_objects::SlotObjects;
use crate::sweep::append_wide;
use cj_case::{AxisBox, Pair};
use cj_steps::Steps;
use std::alloc::{AllocError, Global};
use std::marker::Brand;
use std::sync::ledger::{Blank, Ledger};

/// The entries of all objects with boxes that are not wide, in order of buckets.
fn sorted_entries(alloc: Global, objects: &SlotObjects<'_>) -> Result<Vec<Entry>, AllocError>
    ensures same { IfOk result (λ entries. IsPermutation (entries_among objects.now) entries.items) }
    ensures order { IfOk result (λ entries. AreInOrder entries.items) }
{
    let mut entries = enter_objects(alloc, objects)?;
    entries.sort()?;
    Ok(entries)
}

/// The pairs of objects whose boxes touch, in any order, some of them several times.
fn pairs_found<L: Ledger>(
    alloc: Global,
    objects: &SlotObjects<'_>,
    steps: &mut Steps<L>,
) -> Result<Vec<Pair>, AllocError>
    ensures touching { IfOk result (λ pairs. TouchAmong objects.now pairs.items) }
    ensures found { IfOk result (λ pairs. (a b : ℕ) → a < b → touch_among objects.now (a, b) ≡ true → HasPair pairs.items a b) }
    ensures no_fewer { steps.old ≤ steps.new }
    ensures steps { steps.new ≤ steps.old + bound_among objects.now }
{
    let entries = sorted_entries(alloc, objects)?;
    let wide = wide_objects(alloc, objects)?;
    let mut pairs = Vec::new(alloc);
    append_shared(&entries, objects, steps, &mut pairs)?;
    append_wide(alloc, &wide, objects, steps, &mut pairs)?;
    Ok(pairs)
}

/// Whether a pair was the last one.
fn is_last(last: Option<Pair>, pair: Pair) -> bool
    ensures { result ≡ is_again (option_map objects_of last) (objects_of pair) }
{
    match last {
        Some(last) => last.a == pair.a && last.b == pair.b,
        None => false,
    }
}

/// Of pairs in order each once.
fn without_repeats(alloc: Global, sorted: &[Pair]) -> Result<Vec<Pair>, AllocError>
    ensures { IfOk result (λ pairs. map objects_of pairs.items ≡ unrepeated None (map objects_of sorted.now)) }
{
    let mut pairs = Vec::with_capacity(alloc, sorted.len())?;
    let mut last = None;
    for pair in sorted {
        if !is_last(last, *pair) {
            pairs.push(*pair)?;
        }
        last = Some(*pair);
    }
    Ok(pairs)
}

/// The pairs of these objects whose boxes touch, in order.
fn touching_among<L: Ledger>(
    alloc: Global,
    objects: &SlotObjects<'_>,
    steps: &mut Steps<L>,
) -> Result<Vec<Pair>, AllocError>
    ensures value { IfOk result (λ pairs. map objects_of pairs.items ≡ filter (touch_among objects.now) (pairs_of (length objects.now.boxes.now))) }
    ensures no_fewer { steps.old ≤ steps.new }
    ensures steps { steps.new ≤ steps.old + bound_among objects.now }
{
    let mut found = pairs_found(alloc, objects, steps)?;
    found.sort()?;
    without_repeats(alloc, &found)
}

/// The pairs of objects whose boxes are apart by at most a threshold in nm between objects of these sizes on each axis, in order.
/// A step is a pair of boxes that is compared.
pub fn touching<L: Ledger>(
    alloc: Global,
    boxes: &[Option<AxisBox>],
    sizes: &[u64],
    thr: u64,
    steps: &mut Steps<L>,
) -> Result<Vec<Pair>, AllocError>
    requires few { length boxes.now ≤ MOST_OBJECTS }
    requires sized { length sizes.now ≡ length boxes.now }
    requires small { All (λ size. size ≤ MAX_SIZE) sizes.now }
    requires least { 10 ^ 9 ≤ thr }
    requires most { thr ≤ 10 ^ 15 }

    ensures value { IfOk result (λ pairs. map objects_of pairs.items ≡ filter (touch_between thr sizes.now (plain_boxes boxes.now)) (pairs_of (length boxes.now))) }

    // It takes at most the sum over the buckets of the squares of the boxes entered there, and for each wide box the number of boxes.
    ensures no_fewer { steps.old ≤ steps.new }
    ensures steps { steps.new ≤ steps.old + step_bound thr sizes.now boxes.now }
{
    let objects = SlotObjects { boxes, sizes, thr };
    touching_among(alloc, &objects, steps)
}

/// The same with steps of its own.
fn touching_counted<L: Ledger>(
    blank: Blank,
    alloc: Global,
    objects: &SlotObjects<'_>,
) -> Result<Vec<Pair>, AllocError>
    requires name { blank.name ≡ L.name }
    requires parts { blank.parts ≡ L.parts }
    requires some { 0 < blank.parts }
    ensures value { IfOk result (λ pairs. map objects_of pairs.items ≡ filter (touch_among objects.now) (pairs_of (length objects.now.boxes.now))) }
{
    let mut steps = Steps::<L>::new(blank);
    touching_among(alloc, objects, &mut steps)
}

/// The pairs of objects whose boxes are apart by at most a threshold in nm between objects of these sizes on each axis, in order.
pub fn find_touching(
    alloc: Global,
    boxes: &[Option<AxisBox>],
    sizes: &[u64],
    thr: u64,
) -> Result<Vec<Pair>, AllocError>
    requires few { length boxes.now ≤ MOST_OBJECTS }
    requires sized { length sizes.now ≡ length boxes.now }
    requires small { All (λ size. size ≤ MAX_SIZE) sizes.now }
    requires least { 10 ^ 9 ≤ thr }
    requires most { thr ≤ 10 ^ 15 }
    ensures value { IfOk result (λ pairs. map objects_of pairs.items ≡ filter (touch_between thr sizes.now (plain_boxes boxes.now)) (pairs_of (length boxes.now))) }
{
    let objects = SlotObjects { boxes, sizes, thr };
    touching_counted::<Brand>(Blank::new(1), alloc, &objects)
}
