//! How far the objects of a slot reach along the axis that a sweep leaves out. It is kept close together, so that most pairs that meet in the
//! sweep and do not touch are passed without a look at their boxes.
ghost use Rattle.std.specs.Prelude.{◌≡◌, ◌<◌, false, get_or, length, OnOk, Some, option_map};
ghost use Rattle.cj_case.specs.Boxes.{PlainBox, plain_box};
ghost use Rattle.cj_case.specs.Problems.{plain_problem};
ghost use Rattle.cj_checker.specs.Besides.{AreBeside, AreNear, IsBeside, third as the_third};
ghost use Rattle.cj_checker.specs.declared.beside.Beside.{Beside};

use crate::axis::Axis;
use crate::reaches::{begin, finish};
use cj_case::{AxisBox, Problem};
use std::alloc::{AllocError, Global};

/// From where to where an object reaches along an axis in nm: down with its size, up with its size and the threshold.
#[derive(Clone, Copy)]
pub(crate) struct Beside {
    pub low: i128,
    pub high: i128,
}

/// How far each object reaches along the axis that a sweep along another one leaves out.
#[derive(Drop)]
pub(crate) struct Besides {
    pub axis: Axis,
    pub items: Vec<Beside>,
}

impl Besides {
    pub(crate) fn new(alloc: Global) -> Self {
        Besides {
            axis: Axis::X,
            items: Vec::new(alloc),
        }
    }
}

/// From where to where a box reaches along the axis that is neither that of a sweep nor that across it.
fn third(axis: Axis, area: &AxisBox) -> (i64, i64)
    ensures least { result.0 ≡ (the_third axis (plain_box area.now)).least }
    ensures most { result.1 ≡ (the_third axis (plain_box area.now)).most }
{
    match axis {
        Axis::X => (area.least.z, area.most.z),
        Axis::Y => (area.least.x, area.most.x),
        Axis::Z => (area.least.y, area.most.y),
        Axis::Radius => (area.least.x, area.most.x),
    }
}

/// How far an object reaches by its box. Where it has none any places would do.
fn beside_of(problem: &Problem, axis: Axis, object: usize, area: Option<AxisBox>) -> Beside
    requires { object < length problem.now.tracks }
    ensures { (box : PlainBox) → option_map plain_box area ≡ Some box → IsBeside (plain_problem problem.now) axis object box result }
{
    let size = problem.sizes.as_slice()[object];
    let beyond = size + problem.threshold;
    match area {
        Some(area) => {
            let (least, most) = third(axis, &area);
            Beside {
                low: begin(least, size),
                high: finish(most, beyond),
            }
        }
        None => Beside { low: 0, high: 0 },
    }
}

/// Lays out the objects of a slot for a sweep along an axis, by their boxes there.
pub(crate) fn lay_beside(
    problem: &Problem,
    boxes: &[Option<AxisBox>],
    axis: Axis,
    besides: &mut Besides,
) -> Result<(), AllocError>
    requires { length boxes.now ≡ length problem.now.tracks }
    ensures { OnOk result (AreBeside problem.now boxes.now besides.new) }
{
    besides.axis = axis;
    besides.items.clear();
    for object in 0..boxes.len() {
        besides
            .items
            .push(beside_of(problem, axis, object, boxes[object]))?;
    }
    Ok(())
}

/// Whether two objects do not touch, since one begins behind the end of the other.
pub(crate) fn are_apart(besides: &Besides, one: u32, other: u32) -> bool
    requires one { one < length besides.now.items.items }
    requires other { other < length besides.now.items.items }
    ensures { (d : Beside) → AreNear (get_or besides.now.items.items one d) (get_or besides.now.items.items other d) → result ≡ false }
{
    let a = &besides.items[one as usize];
    let b = &besides.items[other as usize];
    b.high < a.low || a.high < b.low
}
