//! The candidates of a slot, by a sweep along an axis, stripe by stripe.
ghost use Rattle.std.specs.Prelude.{◌≡◌, ℕ, ◌<◌, ◌≤◌, true, length, option_map, Some, IfSome, OnOk};
ghost use Rattle.std.specs.List.{Contains};
ghost use Rattle.cj_case.specs.Pairs.{AreBoth, ArePairsKept, HasPair, objects_of};
ghost use Rattle.cj_checker.specs.Besides.{AreBeside};
ghost use Rattle.cj_checker.specs.Keys.{looks};
ghost use Rattle.cj_checker.specs.Sweeps.{AreCandidatesBy, AreMetBy, Exist, IsInOrder, StayCandidates};

use crate::axis::Axis;
use crate::beside::{Besides, are_apart, lay_beside};
use crate::candidate::is_candidate;
use crate::layout::Layout;
use crate::reach::Reach;
use crate::reaches::{Reaches, begun_within, lay_out};
use cj_case::{AxisBox, Pair, Problem};
use cj_cert::ShellLine;
use std::alloc::{AllocError, Global};

/// The pair of two objects, or none where they are one.
fn pair_of(one: u32, other: u32) -> Option<Pair>
    ensures among { IfSome result (λ pair. AreBoth one other pair.a pair.b) }
    ensures value { (a b : ℕ) → a < b → AreBoth one other a b → option_map objects_of result ≡ Some (a, b) }
{
    if one < other {
        Some(Pair { a: one, b: other })
    } else if other < one {
        Some(Pair { a: other, b: one })
    } else {
        None
    }
}

/// Appends a candidate.
fn append_candidates(
    problem: &Problem,
    shells: &[ShellLine],
    boxes: &[Option<AxisBox>],
    pair: Pair,
    pairs: &mut Vec<Pair>,
) -> Result<(), AllocError>
    requires exists { pair.b < length problem.now.tracks }
    requires shells { length shells.now ≡ length problem.now.tracks }
    requires boxes { length boxes.now ≡ length problem.now.tracks }
    ensures candidate { OnOk result (StayCandidates problem.now shells.now boxes.now pairs.old.items pairs.new.items) }
    ensures kept { OnOk result (ArePairsKept pairs.old.items pairs.new.items) }
    ensures found { OnOk result (looks problem.now shells.now boxes.now (objects_of pair) ≡ true
        → HasPair pairs.new.items pair.a pair.b) }
{
    if !is_candidate(problem, shells, boxes, pair) {
        return Ok(());
    }
    pairs.push(pair)?;
    Ok(())
}

/// Appends the pair of two objects where it is a candidate.
fn append_pair(
    problem: &Problem,
    shells: &[ShellLine],
    boxes: &[Option<AxisBox>],
    one: u32,
    other: u32,
    pairs: &mut Vec<Pair>,
) -> Result<(), AllocError>
    requires one { one < length problem.now.tracks }
    requires other { other < length problem.now.tracks }
    requires shells { length shells.now ≡ length problem.now.tracks }
    requires boxes { length boxes.now ≡ length problem.now.tracks }
    ensures candidate { OnOk result (StayCandidates problem.now shells.now boxes.now pairs.old.items pairs.new.items) }
    ensures kept { OnOk result (ArePairsKept pairs.old.items pairs.new.items) }
    ensures found { OnOk result ((a b : ℕ) → a < b → AreBoth one other a b → looks problem.now shells.now boxes.now (a, b) ≡ true
        → HasPair pairs.new.items a b) }
{
    match pair_of(one, other) {
        Some(pair) => append_candidates(problem, shells, boxes, pair, pairs),
        None => Ok(()),
    }
}

/// The same, without a look at the boxes of two objects that are apart along the axis that the sweep leaves out.
fn append_near(
    problem: &Problem,
    shells: &[ShellLine],
    boxes: &[Option<AxisBox>],
    besides: &Besides,
    one: u32,
    other: u32,
    pairs: &mut Vec<Pair>,
) -> Result<(), AllocError>
    requires one { one < length problem.now.tracks }
    requires other { other < length problem.now.tracks }
    requires shells { length shells.now ≡ length problem.now.tracks }
    requires boxes { length boxes.now ≡ length problem.now.tracks }
    requires besides { AreBeside problem.now boxes.now besides.now }
    ensures candidate { OnOk result (StayCandidates problem.now shells.now boxes.now pairs.old.items pairs.new.items) }
    ensures kept { OnOk result (ArePairsKept pairs.old.items pairs.new.items) }
    ensures found { OnOk result ((a b : ℕ) → a < b → AreBoth one other a b → looks problem.now shells.now boxes.now (a, b) ≡ true
        → HasPair pairs.new.items a b) }
{
    if are_apart(besides, one, other) {
        return Ok(());
    }
    append_pair(problem, shells, boxes, one, other, pairs)
}

/// Appends the candidates among the pairs of an object with others.
fn append_row(
    problem: &Problem,
    shells: &[ShellLine],
    boxes: &[Option<AxisBox>],
    besides: &Besides,
    one: u32,
    others: &[Reach],
    pairs: &mut Vec<Pair>,
) -> Result<(), AllocError>
    requires one { one < length problem.now.tracks }
    requires exist { Exist problem.now others.now }
    requires shells { length shells.now ≡ length problem.now.tracks }
    requires boxes { length boxes.now ≡ length problem.now.tracks }
    requires besides { AreBeside problem.now boxes.now besides.now }
    ensures candidate { OnOk result (StayCandidates problem.now shells.now boxes.now pairs.old.items pairs.new.items) }
    ensures kept { OnOk result (ArePairsKept pairs.old.items pairs.new.items) }
    ensures found { OnOk result ((reach : Reach) → Contains others.now reach → (a b : ℕ) → a < b → AreBoth one reach.object a b
        → looks problem.now shells.now boxes.now (a, b) ≡ true → HasPair pairs.new.items a b) }
{
    for other in others {
        append_near(problem, shells, boxes, besides, one, other.object, pairs)?;
    }
    Ok(())
}

/// Appends the candidates among the pairs of some objects with others of which each begins where the first reaches.
fn append_met(
    problem: &Problem,
    shells: &[ShellLine],
    boxes: &[Option<AxisBox>],
    besides: &Besides,
    some: &[Reach],
    others: &[Reach],
    pairs: &mut Vec<Pair>,
) -> Result<(), AllocError>
    requires exist { Exist problem.now some.now }
    requires exist_too { Exist problem.now others.now }
    requires order { IsInOrder others.now }
    requires shells { length shells.now ≡ length problem.now.tracks }
    requires boxes { length boxes.now ≡ length problem.now.tracks }
    requires besides { AreBeside problem.now boxes.now besides.now }
    ensures candidate { OnOk result (StayCandidates problem.now shells.now boxes.now pairs.old.items pairs.new.items) }
    ensures kept { OnOk result (ArePairsKept pairs.old.items pairs.new.items) }
    ensures found { OnOk result (AreMetBy problem.now shells.now boxes.now some.now others.now pairs.new.items) }
{
    for reach in some {
        let met = begun_within(reach, others);
        append_row(problem, shells, boxes, besides, reach.object, met, pairs)?;
    }
    Ok(())
}

/// Lists that are kept from slot to slot.
#[derive(Drop)]
pub struct Sweep {
    layout: Layout,
    reaches: Reaches,
    besides: Besides,
}

impl Sweep {
    pub fn new(alloc: Global) -> Self {
        Sweep {
            layout: Layout {
                axis: Axis::X,
                striped: true,
            },
            reaches: Reaches::new(alloc),
            besides: Besides::new(alloc),
        }
    }

    /// Finds the candidates of some rows, by the listed shells and the boxes of a slot, in any order. A pair is found
    /// in each stripe that both objects meet, and twice where both begin at one place.
    pub fn find(
        &mut self,
        problem: &Problem,
        shells: &[ShellLine],
        boxes: &[Option<AxisBox>],
        first: u32,
        end: u32,
        pairs: &mut Vec<Pair>,
    ) -> Result<(), AllocError>
        requires shells { length shells.now ≡ length problem.now.tracks }
        requires boxes { length boxes.now ≡ length problem.now.tracks }
        requires within { end ≤ length problem.now.tracks }
        ensures candidate { OnOk result (AreCandidatesBy problem.now shells.now boxes.now pairs.new.items) }
        ensures found { OnOk result ((a b : ℕ) → first ≤ a → a < end → a < b → looks problem.now shells.now boxes.now (a, b) ≡ true
            → HasPair pairs.new.items a b) }
    {
        pairs.clear();
        lay_out(
            problem,
            shells,
            boxes,
            first,
            end,
            &mut self.layout,
            &mut self.reaches,
        )?;
        lay_beside(problem, boxes, self.layout.axis, &mut self.besides)?;
        let besides = &self.besides;
        let (rows, others) = (self.reaches.rows.as_slice(), self.reaches.others.as_slice());
        append_met(problem, shells, boxes, besides, rows, rows, pairs)?;
        append_met(problem, shells, boxes, besides, rows, others, pairs)?;
        append_met(problem, shells, boxes, besides, others, rows, pairs)?;
        Ok(())
    }
}
