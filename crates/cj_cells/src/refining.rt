//! The halving of a cell, until each part is of one kind. A step is a look at a part.
ghost use Rattle.std.specs.Prelude.{◌≡◌, ◌+◌, ◌^◌, ◌<◌, ◌≤◌, length, take, drop, vec_len, All, OnOk, OnErr, IsErrOf};
ghost use Rattle.cj_hermite.specs.Interpolant.{IsOver};
ghost use Rattle.cj_case.specs.Problems.{plain_problem};
ghost use Rattle.cj_hermite.specs.Ready.{curve_ready};
ghost use Rattle.cj_hermite.specs.Roots.{KeepPieces};
ghost use Rattle.cj_bezier.specs.RootLeaves.{kind_between, leaves_of_root, Describe};
ghost use Rattle.cj_bezier.specs.Halving.{leaves_between, splits_between};
ghost use Rattle.cj_case.specs.Cells.{plain_cell};
ghost use Rattle.cj_cells.specs.Cells.{added_leaves};
ghost use Rattle.cj_cells.specs.Lists.{looks_of_root};

use crate::looking::USUAL_SPAN;
use crate::outcome::Look;
use crate::preparing::prepare;
use crate::ready_look::look_at;
use crate::refine_error::RefineError;
use cj_base::Tick;
use cj_bezier::PLACES;
use cj_case::{Cell, Leaf, Problem};
use cj_hermite::Ready;
use cj_interval::Divisor;
use cj_steps::Steps;
use std::alloc::Global;
use std::marker::Brand;
use std::sync::ledger::{Blank, Ledger};

/// Appends the leaves of a cell of two pieces made ready. The parts that wait end at `lasts`, the innermost at `top`.
fn refine_between<L: Ledger>(
    a: &Ready,
    b: &Ready,
    thr: u64,
    cell: Cell,
    limit: u64,
    leaves: &mut Vec<Leaf>,
    steps: &mut Steps<L>,
) -> Result<(), RefineError>
    requires first_over { IsOver (curve_ready a.now) cell.first.micros cell.last.micros }
    requires second_over { IsOver (curve_ready b.now) cell.first.micros cell.last.micros }
    requires least { 10 ^ 9 ≤ thr }
    requires most { thr ≤ 10 ^ 16 }
    requires room { vec_len leaves.old ≤ limit }

    ensures ok { OnOk result (added_leaves leaves.old.items leaves.new.items
        ≡ leaves_between (kind_between (curve_ready a.now) (curve_ready b.now) thr) cell.pair.a cell.pair.b cell.first.micros cell.last.micros) }
    ensures within { OnOk result (vec_len leaves.new ≤ limit) }
    ensures too_many { IsErrOf result RefineError.TooMany
        → limit < vec_len leaves.old + length (leaves_between (kind_between (curve_ready a.now) (curve_ready b.now) thr) cell.pair.a cell.pair.b cell.first.micros cell.last.micros) }
    ensures err { OnErr result (added_leaves leaves.old.items leaves.new.items
        ≡ take (length (added_leaves leaves.old.items leaves.new.items)) (leaves_between (kind_between (curve_ready a.now) (curve_ready b.now) thr) cell.pair.a cell.pair.b cell.first.micros cell.last.micros)) }
    ensures kept { take (vec_len leaves.old) leaves.new.items ≡ leaves.old.items }
    ensures root { All (λ leaf. leaf.cell.root ≡ cell.root) (drop (vec_len leaves.old) leaves.new.items) }

    ensures no_fewer { steps.old ≤ steps.new }
    ensures steps { OnOk result (steps.new ≡ steps.old
        + (length (leaves_between (kind_between (curve_ready a.now) (curve_ready b.now) thr) cell.pair.a cell.pair.b cell.first.micros cell.last.micros)
        + splits_between (kind_between (curve_ready a.now) (curve_ready b.now) thr) cell.first.micros cell.last.micros)) }
    ensures few_steps { steps.new ≤ steps.old
        + (length (leaves_between (kind_between (curve_ready a.now) (curve_ready b.now) thr) cell.pair.a cell.pair.b cell.first.micros cell.last.micros)
        + splits_between (kind_between (curve_ready a.now) (curve_ready b.now) thr) cell.first.micros cell.last.micros) }
{
    let mut lasts = [cell.last; PLACES];
    let mut top = PLACES - 1;
    let mut first = cell.first.micros;
    while top < PLACES {
        if leaves.len() as u64 >= limit {
            return Err(RefineError::TooMany);
        }
        let last = lasts[top];
        let part = Cell {
            pair: cell.pair,
            root: cell.root,
            first: Tick { micros: first },
            last,
        };
        steps.tick();
        match look_at(a, b, thr, part) {
            Look::Closed(leaf) => {
                leaves.push(leaf)?;
                first = last.micros + 1;
                top += 1;
            }
            Look::Halves(left, _) => {
                top -= 1;
                lasts[top] = left.last;
            }
        }
    }
    Ok(())
}

/// Appends the leaves of a cell whose ticks have the same two pieces, and counts a step for each look at a part. After a refusal a prefix
/// of them is appended.
pub fn refine_once<L: Ledger>(
    _alloc: Global,
    problem: &Problem,
    cell: Cell,
    limit: u64,
    leaves: &mut Vec<Leaf>,
    steps: &mut Steps<L>,
) -> Result<(), RefineError>
    requires pieces { KeepPieces (plain_problem problem.now) cell.pair.a cell.pair.b cell.first.micros cell.last.micros }
    requires room { vec_len leaves.old ≤ limit }

    ensures ok { OnOk result (added_leaves leaves.old.items leaves.new.items ≡ leaves_of_root (plain_problem problem.now) (plain_cell cell)) }
    ensures within { OnOk result (vec_len leaves.new ≤ limit) }
    ensures too_many { IsErrOf result RefineError.TooMany → limit < vec_len leaves.old + length (leaves_of_root (plain_problem problem.now) (plain_cell cell)) }
    ensures err { OnErr result (added_leaves leaves.old.items leaves.new.items
        ≡ take (length (added_leaves leaves.old.items leaves.new.items)) (leaves_of_root (plain_problem problem.now) (plain_cell cell))) }

    // The leaves lie in order in the cell, hold each of its ticks, and each is true at each of its own.
    ensures leaves { Describe (plain_problem problem.now) (plain_cell cell) (leaves_of_root (plain_problem problem.now) (plain_cell cell)) }

    // What was there stays, and what is appended has the cell's root.
    ensures kept { take (vec_len leaves.old) leaves.new.items ≡ leaves.old.items }
    ensures root { All (λ leaf. leaf.cell.root ≡ cell.root) (drop (vec_len leaves.old) leaves.new.items) }

    // A step for each leaf and one for each halving, and no more where it refuses.
    ensures no_fewer { steps.old ≤ steps.new }
    ensures steps { OnOk result (steps.new ≡ steps.old + looks_of_root (plain_problem problem.now) (plain_cell cell)) }
    ensures few_steps { steps.new ≤ steps.old + looks_of_root (plain_problem problem.now) (plain_cell cell) }
{
    let ready = prepare(problem, cell, &Divisor::new(USUAL_SPAN));
    let threshold = problem.pair_threshold(cell.pair);
    refine_between(&ready.a, &ready.b, threshold, cell, limit, leaves, steps)
}

/// The same with steps of its own.
fn refine_counted<L: Ledger>(
    blank: Blank,
    alloc: Global,
    problem: &Problem,
    cell: Cell,
    limit: u64,
    leaves: &mut Vec<Leaf>,
) -> Result<(), RefineError>
    requires name { blank.name ≡ L.name }
    requires parts { blank.parts ≡ L.parts }
    requires some { 0 < blank.parts }
    requires pieces { KeepPieces (plain_problem problem.now) cell.pair.a cell.pair.b cell.first.micros cell.last.micros }
    requires room { vec_len leaves.old ≤ limit }

    ensures ok { OnOk result (added_leaves leaves.old.items leaves.new.items ≡ leaves_of_root (plain_problem problem.now) (plain_cell cell)) }
    ensures within { OnOk result (vec_len leaves.new ≤ limit) }
    ensures too_many { IsErrOf result RefineError.TooMany → limit < vec_len leaves.old + length (leaves_of_root (plain_problem problem.now) (plain_cell cell)) }
    ensures err { OnErr result (added_leaves leaves.old.items leaves.new.items
        ≡ take (length (added_leaves leaves.old.items leaves.new.items)) (leaves_of_root (plain_problem problem.now) (plain_cell cell))) }

    // The leaves lie in order in the cell, hold each of its ticks, and each is true at each of its own.
    ensures leaves { Describe (plain_problem problem.now) (plain_cell cell) (leaves_of_root (plain_problem problem.now) (plain_cell cell)) }

    // What was there stays, and what is appended has the cell's root.
    ensures kept { take (vec_len leaves.old) leaves.new.items ≡ leaves.old.items }
    ensures root { All (λ leaf. leaf.cell.root ≡ cell.root) (drop (vec_len leaves.old) leaves.new.items) }
{
    let mut steps = Steps::<L>::new(blank);
    refine_once(alloc, problem, cell, limit, leaves, &mut steps)
}

/// Appends the leaves of a cell whose ticks have the same two pieces. After a refusal a prefix of them is appended.
pub fn refine(
    alloc: Global,
    problem: &Problem,
    cell: Cell,
    limit: u64,
    leaves: &mut Vec<Leaf>,
) -> Result<(), RefineError>
    requires pieces { KeepPieces (plain_problem problem.now) cell.pair.a cell.pair.b cell.first.micros cell.last.micros }
    requires room { vec_len leaves.old ≤ limit }

    ensures ok { OnOk result (added_leaves leaves.old.items leaves.new.items ≡ leaves_of_root (plain_problem problem.now) (plain_cell cell)) }
    ensures within { OnOk result (vec_len leaves.new ≤ limit) }
    ensures too_many { IsErrOf result RefineError.TooMany → limit < vec_len leaves.old + length (leaves_of_root (plain_problem problem.now) (plain_cell cell)) }
    ensures err { OnErr result (added_leaves leaves.old.items leaves.new.items
        ≡ take (length (added_leaves leaves.old.items leaves.new.items)) (leaves_of_root (plain_problem problem.now) (plain_cell cell))) }

    // The leaves lie in order in the cell, hold each of its ticks, and each is true at each of its own.
    ensures leaves { Describe (plain_problem problem.now) (plain_cell cell) (leaves_of_root (plain_problem problem.now) (plain_cell cell)) }

    // What was there stays, and what is appended has the cell's root.
    ensures kept { take (vec_len leaves.old) leaves.new.items ≡ leaves.old.items }
    ensures root { All (λ leaf. leaf.cell.root ≡ cell.root) (drop (vec_len leaves.old) leaves.new.items) }
{
    refine_counted::<Brand>(Blank::new(1), alloc, problem, cell, limit, leaves)
}
