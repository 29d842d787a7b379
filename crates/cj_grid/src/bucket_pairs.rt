//! The pairs of objects that share a bucket.
ghost use Rattle.std.specs.Prelude.{◌≡◌, ℕ, ◌+◌, ◌<◌, ◌≤◌, true, ◌&&◌, nat_eq, nat_lt, option_map, length, All, Some, IfSome, OnOk};
ghost use Rattle.cj_case.specs.Pairs.{AreBoth, ArePairsKept, HasPair, objects_of};
ghost use Rattle.cj_grid.specs.Buckets.{entered_in, bucket_squares};
ghost use Rattle.cj_grid.specs.Among.{touch_among, StillTouchAmong, AreFound, AreFoundAt};
ghost use Rattle.cj_grid.specs.Found.{ShareBucket, AreInOrder, entry_at};

use crate::box_touch::touches;
use crate::entries::Entry;
use crate::slot_objects::SlotObjects;
use cj_case::{Pair, threshold_between};
use cj_steps::Steps;
use std::alloc::AllocError;
use std::sync::ledger::Ledger;

/// The pair of two objects, or none where they are one.
fn pair_of(one: u32, other: u32) -> Option<Pair>
    ensures among { IfSome result (λ pair. AreBoth one other pair.a pair.b) }
    ensures value { (a b : ℕ) → a < b → AreBoth one other a b → option_map objects_of result ≡ Some (a, b) }
{
    if one < other {
        Some(Pair { a: one, b: other })
    } else if other < one {
        Some(Pair { a: other, b: one })
    } else {
        None
    }
}

/// Whether the boxes of a pair touch. It is at most one step.
fn pair_touches<L: Ledger>(pair: Pair, objects: &SlotObjects<'_>, steps: &mut Steps<L>) -> bool
    requires exists { pair.b < length objects.now.boxes.now }
    ensures value { result ≡ touch_among objects.now (objects_of pair) }
    ensures no_fewer { steps.old ≤ steps.new }
    ensures one { steps.new ≤ steps.old + 1 }
{
    let between = threshold_between(objects.sizes, objects.thr, pair);
    match (
        &objects.boxes[pair.a as usize],
        &objects.boxes[pair.b as usize],
    ) {
        (Some(a), Some(b)) => touches(a, b, between, steps),
        _ => false,
    }
}

/// Appends a pair whose boxes touch. It is at most one step.
fn append_touching<L: Ledger>(
    pair: Pair,
    objects: &SlotObjects<'_>,
    steps: &mut Steps<L>,
    pairs: &mut Vec<Pair>,
) -> Result<(), AllocError>
    requires exists { pair.b < length objects.now.boxes.now }
    ensures touching { OnOk result (StillTouchAmong objects.now pairs.old.items pairs.new.items) }
    ensures kept { OnOk result (ArePairsKept pairs.old.items pairs.new.items) }
    ensures found { OnOk result (touch_among objects.now (objects_of pair) ≡ true → HasPair pairs.new.items pair.a pair.b) }
    ensures no_fewer { steps.old ≤ steps.new }
    ensures one { steps.new ≤ steps.old + 1 }
{
    if !pair_touches(pair, objects, steps) {
        return Ok(());
    }
    pairs.push(pair)?;
    Ok(())
}

/// Appends the pair of two objects where their boxes touch. It is at most one step.
pub fn append_pair<L: Ledger>(
    one: u32,
    other: u32,
    objects: &SlotObjects<'_>,
    steps: &mut Steps<L>,
    pairs: &mut Vec<Pair>,
) -> Result<(), AllocError>
    requires one { one < length objects.now.boxes.now }
    requires other { other < length objects.now.boxes.now }
    ensures touching { OnOk result (StillTouchAmong objects.now pairs.old.items pairs.new.items) }
    ensures kept { OnOk result (ArePairsKept pairs.old.items pairs.new.items) }
    ensures found { OnOk result (AreFound objects.now (AreBoth one other) pairs.new.items) }
    ensures no_fewer { steps.old ≤ steps.new }
    ensures one { steps.new ≤ steps.old + 1 }
{
    match pair_of(one, other) {
        Some(pair) => append_touching(pair, objects, steps, pairs),
        None => Ok(()),
    }
}

/// The entry at a place.
fn entry_of(entries: &[Entry], at: usize) -> Entry
    requires { at < length entries.now }
    ensures { result ≡ entry_at entries.now at }
{
    entries[at]
}

/// The object entered at a place.
fn object_of(entries: &[Entry], at: usize) -> u32
    requires { at < length entries.now }
    ensures { result ≡ (entry_at entries.now at).object }
{
    entries[at].object
}

/// Whether the entry at a place is one of a bucket.
fn is_in_bucket(entries: &[Entry], at: usize, bucket: u64) -> bool
    ensures { result ≡ (nat_lt at (length entries.now) && nat_eq (entry_at entries.now at).bucket bucket) }
{
    at < entries.len() && entries[at].bucket == bucket
}

/// Appends the touching pairs of the object entered at a place with those entered in the same bucket behind it.
fn append_row<L: Ledger>(
    at: usize,
    entries: &[Entry],
    objects: &SlotObjects<'_>,
    steps: &mut Steps<L>,
    pairs: &mut Vec<Pair>,
) -> Result<(), AllocError>
    requires exists { at < length entries.now }
    requires order { AreInOrder entries.now }
    requires objects { All (λ entry. entry.object < length objects.now.boxes.now) entries.now }
    ensures touching { OnOk result (StillTouchAmong objects.now pairs.old.items pairs.new.items) }
    ensures kept { OnOk result (ArePairsKept pairs.old.items pairs.new.items) }
    ensures found { OnOk result ((k : ℕ) → at < k → ShareBucket entries.now at k → AreFoundAt objects.now entries.now at k pairs.new.items) }
    ensures no_fewer { steps.old ≤ steps.new }
    ensures steps { steps.new ≤ steps.old + entered_in (entry_at entries.now at).bucket entries.now }
{
    let own = entry_of(entries, at);
    let mut next = at + 1;
    while is_in_bucket(entries, next, own.bucket) {
        let other = object_of(entries, next);
        append_pair(own.object, other, objects, steps, pairs)?;
        next += 1;
    }
    Ok(())
}

/// Appends the touching pairs of objects that share a bucket, a pair as often as they share one.
pub fn append_shared<L: Ledger>(
    entries: &[Entry],
    objects: &SlotObjects<'_>,
    steps: &mut Steps<L>,
    pairs: &mut Vec<Pair>,
) -> Result<(), AllocError>
    requires order { AreInOrder entries.now }
    requires objects { All (λ entry. entry.object < length objects.now.boxes.now) entries.now }
    ensures touching { OnOk result (StillTouchAmong objects.now pairs.old.items pairs.new.items) }
    ensures kept { OnOk result (ArePairsKept pairs.old.items pairs.new.items) }
    ensures found { OnOk result ((j k : ℕ) → j < k → ShareBucket entries.now j k → AreFoundAt objects.now entries.now j k pairs.new.items) }
    ensures no_fewer { steps.old ≤ steps.new }
    ensures steps { steps.new ≤ steps.old + bucket_squares entries.now }
{
    for at in 0..entries.len() {
        append_row(at, entries, objects, steps, pairs)?;
    }
    Ok(())
}
