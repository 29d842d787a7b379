//! The pairs of objects of which one has a wide box, found by a sweep along an axis.
ghost use Rattle.std.specs.Prelude.{◌≡◌, ◌⊎◌, ℕ, ◌+◌, ◌*◌, ◌<◌, ◌≤◌, is_some, length, count_by, OnOk};
ghost use Rattle.std.specs.List.{Contains};
ghost use Rattle.cj_case.specs.Pairs.{AreBoth, ArePairsKept};
ghost use Rattle.cj_grid.specs.Among.{wide_among, StillTouchAmong, AreFound};
ghost use Rattle.cj_grid.specs.Sweeps.{AreLaidOut, AreMet, Exist, IsInOrder, IsMetBy};

use crate::bucket_pairs::append_pair;
use crate::entries::narrow_objects;
use crate::reach::Reach;
use crate::reaches::{Reaches, begun_about, begun_within, lay_out};
use crate::slot_objects::SlotObjects;
use cj_case::Pair;
use cj_steps::Steps;
use std::alloc::{AllocError, Global};
use std::sync::ledger::Ledger;

/// Appends the touching pairs of an object with some others.
fn append_met<L: Ledger>(
    one: u32,
    others: &[Reach],
    objects: &SlotObjects<'_>,
    steps: &mut Steps<L>,
    pairs: &mut Vec<Pair>,
) -> Result<(), AllocError>
    requires one { one < length objects.now.boxes.now }
    requires exist { Exist objects.now others.now }
    ensures touching { OnOk result (StillTouchAmong objects.now pairs.old.items pairs.new.items) }
    ensures kept { OnOk result (ArePairsKept pairs.old.items pairs.new.items) }
    ensures found { OnOk result ((other : Reach) → Contains others.now other → AreFound objects.now (AreBoth one other.object) pairs.new.items) }
    ensures no_fewer { steps.old ≤ steps.new }
    ensures steps { steps.new ≤ steps.old + length others.now }
{
    for other in others {
        append_pair(one, other.object, objects, steps, pairs)?;
    }
    Ok(())
}

/// Appends the touching pairs of an object that has a wide box with those that meet it.
fn append_own<L: Ledger>(
    own: &Reach,
    reaches: &Reaches,
    objects: &SlotObjects<'_>,
    steps: &mut Steps<L>,
    pairs: &mut Vec<Pair>,
) -> Result<(), AllocError>
    requires own { own.now.object < length objects.now.boxes.now }
    requires laid { AreLaidOut objects.now reaches.now }
    ensures touching { OnOk result (StillTouchAmong objects.now pairs.old.items pairs.new.items) }
    ensures kept { OnOk result (ArePairsKept pairs.old.items pairs.new.items) }
    ensures found { OnOk result ((other : Reach) → IsMetBy reaches.now own.now other → AreFound objects.now (AreBoth own.now.object other.object) pairs.new.items) }
    ensures no_fewer { steps.old ≤ steps.new }
    ensures steps { steps.new ≤ steps.old + (length reaches.now.wide.items + length reaches.now.others.items) }
{
    let wide = begun_within(own, &reaches.wide);
    let others = begun_about(own, &reaches.others);
    append_met(own.object, wide, objects, steps, pairs)?;
    append_met(own.object, others, objects, steps, pairs)?;
    Ok(())
}

/// Appends the touching pairs of objects of which one has a wide box and the other meets it.
fn append_all<L: Ledger>(
    reaches: &Reaches,
    objects: &SlotObjects<'_>,
    steps: &mut Steps<L>,
    pairs: &mut Vec<Pair>,
) -> Result<(), AllocError>
    requires { AreLaidOut objects.now reaches.now }
    ensures touching { OnOk result (StillTouchAmong objects.now pairs.old.items pairs.new.items) }
    ensures kept { OnOk result (ArePairsKept pairs.old.items pairs.new.items) }
    ensures found { OnOk result (AreFound objects.now (AreMet reaches.now) pairs.new.items) }
    ensures no_fewer { steps.old ≤ steps.new }
    ensures steps { steps.new ≤ steps.old + length reaches.now.wide.items * (length reaches.now.wide.items + length reaches.now.others.items) }
{
    for own in &reaches.wide {
        append_own(own, reaches, objects, steps, pairs)?;
    }
    Ok(())
}

/// Appends the touching pairs of objects with wide boxes with all others.
pub fn append_wide<L: Ledger>(
    alloc: Global,
    wide: &[u32],
    objects: &SlotObjects<'_>,
    steps: &mut Steps<L>,
    pairs: &mut Vec<Pair>,
) -> Result<(), AllocError>
    requires { wide.now ≡ wide_among objects.now }
    ensures touching { OnOk result (StillTouchAmong objects.now pairs.old.items pairs.new.items) }
    ensures kept { OnOk result (ArePairsKept pairs.old.items pairs.new.items) }
    ensures found { OnOk result (AreFound objects.now (λ a b. Contains wide.now a ⊎ Contains wide.now b) pairs.new.items) }
    ensures no_fewer { steps.old ≤ steps.new }
    ensures steps { steps.new ≤ steps.old + length wide.now * count_by is_some objects.now.boxes.now }
{
    if wide.is_empty() {
        return Ok(());
    }
    let others = narrow_objects(alloc, objects)?;
    let reaches = lay_out(alloc, objects, wide, &others)?;
    append_all(&reaches, objects, steps, pairs)
}
