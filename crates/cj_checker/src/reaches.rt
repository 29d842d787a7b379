//! How far the objects of a slot reach along an axis, in each stripe across it, and how they are laid out that the fewest of them meet.
ghost use Rattle.std.specs.Prelude.{◌≡◌, ℕ, ◌<◌, ◌≤◌, pos, ◌+ℤ◌, ◌-ℤ◌, ◌≤ℤ◌, ◌^◌, length, option_map, Some, OnOk};
ghost use Rattle.cj_interval.specs.Sizes.{IsWithin};
ghost use Rattle.std.specs.List.{Contains};
ghost use Rattle.std.specs.List.Sorted.{IsPermutation};
ghost use Rattle.cj_case.specs.Problems.{plain_problem};
ghost use Rattle.cj_case.specs.Boxes.{PlainBox, plain_box};
ghost use Rattle.cj_checker.specs.Sweeps.{AreLaidOut, Exist, HasReachBy, IsEntered, IsInOrder, reach_of, side};

use crate::axis::Axis;
use crate::layout::Layout;
use crate::reach::Reach;
use crate::stripes::enter_in_stripes;
use cj_case::{AxisBox, Problem, Shell};
use cj_cert::ShellLine;
use std::alloc::{AllocError, Global};

/// The reaches of the objects of some rows along an axis, and those of the objects behind them, each in order of where they begin.
#[derive(Drop)]
pub(crate) struct Reaches {
    pub rows: Vec<Reach>,
    pub others: Vec<Reach>,
}

impl Reaches {
    pub(crate) fn new(alloc: Global) -> Self {
        Reaches {
            rows: Vec::new(alloc),
            others: Vec::new(alloc),
        }
    }
}

/// Where a reach on an axis of space begins, moved back by a size.
pub(crate) fn begin(least: i64, size: u64) -> i128
    ensures value { result ≡ least -ℤ pos size }
    ensures near { IsWithin (2 ^ 70) result }
{
    i128::from(least) - i128::from(size)
}

/// Where a reach on an axis of space ends, moved on by a size and the threshold together.
pub(crate) fn finish(most: i64, beyond: u64) -> i128
    ensures value { result ≡ most +ℤ pos beyond }
    ensures near { IsWithin (2 ^ 70) result }
{
    i128::from(most) + i128::from(beyond)
}

/// Where a shell begins, moved back by a size.
fn begin_shell(lo: u64, size: u64) -> i128
    ensures value { result ≡ pos lo -ℤ pos size }
    ensures near { IsWithin (2 ^ 70) result }
{
    i128::from(lo) - i128::from(size)
}

/// Where a shell ends, moved on by a size and the threshold together.
fn finish_shell(hi: u64, beyond: u64) -> i128
    ensures value { result ≡ pos hi +ℤ pos beyond }
    ensures near { IsWithin (2 ^ 70) result }
{
    i128::from(hi) + i128::from(beyond)
}

/// The reach of an object along an axis.
fn reach_along(problem: &Problem, axis: Axis, object: u32, shell: Shell, area: &AxisBox) -> Reach
    requires { object < length problem.now.tracks }
    ensures value { result ≡ reach_of (plain_problem problem.now) object (side axis shell (plain_box area.now)) }
    ensures low { IsWithin (2 ^ 70) result.low }
    ensures high { IsWithin (2 ^ 70) result.high }
{
    let size = problem.sizes.as_slice()[object as usize];
    let beyond = size + problem.threshold;
    let (low, high) = match axis {
        Axis::X => (begin(area.least.x, size), finish(area.most.x, beyond)),
        Axis::Y => (begin(area.least.y, size), finish(area.most.y, beyond)),
        Axis::Z => (begin(area.least.z, size), finish(area.most.z, beyond)),
        Axis::Radius => (begin_shell(shell.lo, size), finish_shell(shell.hi, beyond)),
    };
    Reach { low, high, object }
}

/// Enters an object in each stripe that it meets, where it has a shell and a box.
fn enter_object(
    problem: &Problem,
    layout: Layout,
    object: u32,
    shell: Option<Shell>,
    area: Option<AxisBox>,
    reaches: &mut Vec<Reach>,
) -> Result<(), AllocError>
    requires { object < length problem.now.tracks }
    ensures exist { OnOk result (Exist problem.now reaches.old.items → Exist problem.now reaches.new.items) }
    ensures kept { OnOk result ((reach : Reach) → Contains reaches.old.items reach → Contains reaches.new.items reach) }
    ensures entered { OnOk result ((own : Shell) (box : PlainBox) → shell ≡ Some own → option_map plain_box area ≡ Some box
        → IsEntered (plain_problem problem.now) object own box layout reaches.new.items) }
{
    let Some(shell) = shell else {
        return Ok(());
    };
    let Some(area) = area else {
        return Ok(());
    };
    let own = reach_along(problem, layout.axis, object, shell, &area);
    let across = reach_along(problem, layout.axis.across(), object, shell, &area);
    enter_in_stripes(layout.striped, &own, &across, reaches)
}

/// The reaches of the objects from one on, up to an end.
fn enter(
    problem: &Problem,
    shells: &[ShellLine],
    boxes: &[Option<AxisBox>],
    layout: Layout,
    first: u32,
    end: u32,
    reaches: &mut Vec<Reach>,
) -> Result<(), AllocError>
    requires shells { length shells.now ≡ length problem.now.tracks }
    requires boxes { length boxes.now ≡ length problem.now.tracks }
    requires within { end ≤ length problem.now.tracks }
    ensures exist { OnOk result (Exist problem.now reaches.new.items) }
    ensures entered { OnOk result ((object : ℕ) → first ≤ object → object < end
        → HasReachBy problem.now shells.now boxes.now layout reaches.new.items object) }
{
    reaches.clear();
    for object in first..end {
        let at = object as usize;
        enter_object(
            problem,
            layout,
            object,
            shells[at].shell,
            boxes[at],
            reaches,
        )?;
    }
    Ok(())
}

/// Puts reaches in order of where they begin.
fn put_in_order(reaches: &mut Vec<Reach>)
    ensures same { IsPermutation reaches.old.items reaches.new.items }
    ensures order { IsInOrder reaches.new.items }
{
    reaches.sort_unstable();
}

/// Of others in order, those that begin where a reach does or behind.
fn begun_behind<'r>(reach: &Reach, others: &'r [Reach]) -> &'r [Reach]
    requires { IsInOrder others.now }
    ensures exist { (problem : Problem) → Exist problem others.now → Exist problem result.now }
    ensures order { IsInOrder result.now }
    ensures kept { (other : Reach) → Contains others.now other → reach.now.low ≤ℤ other.low → Contains result.now other }
{
    let low = reach.low;
    let before = others.partition_point(|other| other.low < low);
    &others[before..]
}

/// Of others in order, those that begin where a reach ends or before.
fn begun_before<'r>(reach: &Reach, others: &'r [Reach]) -> &'r [Reach]
    requires { IsInOrder others.now }
    ensures exist { (problem : Problem) → Exist problem others.now → Exist problem result.now }
    ensures kept { (other : Reach) → Contains others.now other → other.low ≤ℤ reach.now.high → Contains result.now other }
{
    let high = reach.high;
    let within = others.partition_point(|other| other.low <= high);
    &others[..within]
}

/// Of others in order, those that begin where a reach is.
pub(crate) fn begun_within<'r>(reach: &Reach, others: &'r [Reach]) -> &'r [Reach]
    requires { IsInOrder others.now }
    ensures exist { (problem : Problem) → Exist problem others.now → Exist problem result.now }
    ensures kept { (other : Reach) → Contains others.now other → reach.now.low ≤ℤ other.low → other.low ≤ℤ reach.now.high
        → Contains result.now other }
{
    begun_before(reach, begun_behind(reach, others))
}

/// From so many reaches on every sixteenth of them is asked how many it meets, for all.
const MANY: usize = 4_096;

/// How many times, or some such number, one of some reaches in order begins where one of others is. Any number would do.
fn meetings(some: &[Reach], others: &[Reach]) -> usize
    requires { IsInOrder others.now }
{
    let step = if some.len() < MANY { 1 } else { 16 };
    let mut count = 0usize;
    for number in 0..some.len() / step {
        if let Some(reach) = some.get(number.saturating_mul(step)) {
            count = count.saturating_add(begun_within(reach, others).len());
        }
    }
    count.saturating_mul(step)
}

/// How many pairs of some rows meet. Any number would do.
fn pairs_that_meet(reaches: &Reaches) -> usize
    requires rows { IsInOrder reaches.now.rows.items }
    requires others { IsInOrder reaches.now.others.items }
{
    let (rows, others) = (reaches.rows.as_slice(), reaches.others.as_slice());
    meetings(rows, rows)
        .saturating_add(meetings(rows, others))
        .saturating_add(meetings(others, rows))
}

/// The reaches of the objects of some rows, and of those behind, by a layout.
fn enter_by(
    problem: &Problem,
    shells: &[ShellLine],
    boxes: &[Option<AxisBox>],
    layout: Layout,
    first: u32,
    end: u32,
    reaches: &mut Reaches,
) -> Result<(), AllocError>
    requires shells { length shells.now ≡ length problem.now.tracks }
    requires boxes { length boxes.now ≡ length problem.now.tracks }
    requires within { end ≤ length problem.now.tracks }
    ensures { OnOk result (AreLaidOut problem.now shells.now boxes.now first end reaches.new) }
{
    let objects = boxes.len() as u32;
    enter(
        problem,
        shells,
        boxes,
        layout,
        first,
        end,
        &mut reaches.rows,
    )?;
    enter(
        problem,
        shells,
        boxes,
        layout,
        end,
        objects,
        &mut reaches.others,
    )?;
    put_in_order(&mut reaches.rows);
    put_in_order(&mut reaches.others);
    Ok(())
}

/// All layouts.
const LAYOUTS: [Layout; 8] = [
    Layout {
        axis: Axis::X,
        striped: true,
    },
    Layout {
        axis: Axis::Y,
        striped: true,
    },
    Layout {
        axis: Axis::Z,
        striped: true,
    },
    Layout {
        axis: Axis::Radius,
        striped: true,
    },
    Layout {
        axis: Axis::X,
        striped: false,
    },
    Layout {
        axis: Axis::Y,
        striped: false,
    },
    Layout {
        axis: Axis::Z,
        striped: false,
    },
    Layout {
        axis: Axis::Radius,
        striped: false,
    },
];

/// The layout by which the fewest pairs of some rows meet. Any would do.
fn best_layout(
    problem: &Problem,
    shells: &[ShellLine],
    boxes: &[Option<AxisBox>],
    first: u32,
    end: u32,
    reaches: &mut Reaches,
) -> Result<Layout, AllocError>
    requires shells { length shells.now ≡ length problem.now.tracks }
    requires boxes { length boxes.now ≡ length problem.now.tracks }
    requires within { end ≤ length problem.now.tracks }
{
    let mut best = Layout {
        axis: Axis::X,
        striped: false,
    };
    let mut fewest = usize::MAX;
    for layout in LAYOUTS {
        enter_by(problem, shells, boxes, layout, first, end, reaches)?;
        let count = pairs_that_meet(reaches);
        if count < fewest {
            best = layout;
            fewest = count;
        }
    }
    Ok(best)
}

/// Whether a sweep along these reaches would go through more than a quarter of all pairs of so many objects. Either answer would do.
fn are_many(objects: usize, reaches: &Reaches) -> bool
    requires rows { IsInOrder reaches.now.rows.items }
    requires others { IsInOrder reaches.now.others.items }
{
    objects < reaches.rows.len().saturating_mul(8)
        && objects.saturating_mul(objects) / 8 < pairs_that_meet(reaches)
}

/// The reaches of the objects of some rows, and of those behind, by the layout that was taken last, or by another one where many pairs
/// meet by it.
pub(crate) fn lay_out(
    problem: &Problem,
    shells: &[ShellLine],
    boxes: &[Option<AxisBox>],
    first: u32,
    end: u32,
    layout: &mut Layout,
    reaches: &mut Reaches,
) -> Result<(), AllocError>
    requires shells { length shells.now ≡ length problem.now.tracks }
    requires boxes { length boxes.now ≡ length problem.now.tracks }
    requires within { end ≤ length problem.now.tracks }
    ensures { OnOk result (AreLaidOut problem.now shells.now boxes.now first end reaches.new) }
{
    enter_by(problem, shells, boxes, *layout, first, end, reaches)?;
    if are_many(boxes.len(), reaches) {
        *layout = best_layout(problem, shells, boxes, first, end, reaches)?;
        enter_by(problem, shells, boxes, *layout, first, end, reaches)?;
    }
    Ok(())
}
