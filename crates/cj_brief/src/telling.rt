//! The leaves that a certificate in brief tells, from the list of all leaves.
ghost use Rattle.std.specs.Prelude.{◌≡◌, ◌==◌, ◌++◌, ◌<◌, ◌≤◌, if◌then◌else◌, List, [], All, IfOk, OnOk, flat_map, get_or, length, map, position, replicate, set};
ghost use Rattle.std.specs.List.{list_all};
ghost use Rattle.cj_case.specs.Cells.{plain_cell, plain_cells};
ghost use Rattle.cj_case.specs.declared.kind.Kind.TheVariants.{Far};
ghost use Rattle.cj_case.specs.Leaves.{PlainLeaf, plain_leaves, same_kind};
ghost use Rattle.cj_case.specs.Problems.{plain_problem};
ghost use Rattle.cj_case.specs.Slots.{slot_of as the_slot};
ghost use Rattle.cj_hermite.specs.Roots.{roots_of, slots_of};
ghost use Rattle.cj_bezier.specs.Candidates.{is_candidate};
ghost use Rattle.cj_bezier.specs.RootLeaves.{leaves_of_roots};
ghost use Rattle.cj_bezier.specs.ToldLeaves.{told_leaves};
ghost use Rattle.cj_cert.specs.Written.{leaves_in_order};
ghost use Rattle.cj_brief.specs.Telling.{EndsAt, IsListed, plain_lists, told_at};

use cj_base::Tick;
use cj_case::{Cell, Kind, Leaf, Problem, SLOT, slot_count};
use cj_cert::acceptance;
use std::alloc::{AllocError, Global};

/// The place of the first leaf that ends at a tick.
fn first_end(leaves: &[Leaf], last: Tick) -> Option<usize>
    ensures { result ≡ position (λ leaf. leaf.cell.last.micros == last.micros) leaves.now }
{
    leaves.iter().position(|leaf| leaf.cell.last == last)
}

/// How many leaves there are up to the first one that ends at a tick, or how many in all.
fn count_to(leaves: &[Leaf], last: Tick) -> usize
    ensures within { result ≤ length leaves.now }
    ensures ends { (own rest : List PlainLeaf) → EndsAt last.micros own → plain_leaves leaves.now ≡ own ++ rest → result ≡ length own }
{
    match first_end(leaves, last) {
        Some(at) => at + 1,
        None => leaves.len(),
    }
}

fn is_far(leaf: &Leaf) -> bool
    ensures { result ≡ same_kind Far leaf.now.kind }
{
    match leaf.kind {
        Kind::Far => true,
        Kind::Near | Kind::Undecided => false,
    }
}

/// Whether each of these leaves is far.
fn are_far(leaves: &[Leaf]) -> bool
    ensures { result ≡ list_all (λ leaf. same_kind Far leaf.kind) leaves.now }
{
    leaves.iter().all(|leaf| is_far(leaf))
}

/// Tells the leaves of a root: all of them, or none where each is far.
fn tell(leaves: &[Leaf], told: &mut Vec<Leaf>) -> Result<(), AllocError>
    ensures { OnOk result (plain_leaves told.new.items
        ≡ plain_leaves told.old.items ++ (if list_all (λ leaf. same_kind Far leaf.kind) leaves.now then [] else plain_leaves leaves.now)) }
{
    if are_far(leaves) {
        return Ok(());
    }
    told.extend_from_slice(leaves)?;
    Ok(())
}

/// Tells the leaves of a root in the list of a slot.
fn tell_in(leaves: &[Leaf], slot: u32, lists: &mut [Vec<Leaf>]) -> Result<(), AllocError>
    requires { slot < length lists.old }
    ensures value { OnOk result (plain_lists lists.new
        ≡ set (plain_lists lists.old) slot (get_or (plain_lists lists.old) slot []
        ++ (if list_all (λ leaf. same_kind Far leaf.kind) leaves.now then [] else plain_leaves leaves.now))) }
    ensures len { length lists.new ≡ length lists.old }
{
    let list = &mut lists[slot as usize];
    tell(leaves, list)
}

/// The slot of a tick of a window that begins at `first`.
fn slot_at(first: Tick, at: Tick) -> u32
    ensures { result ≡ the_slot first.micros at.micros }
{
    (at.micros.saturating_sub(first.micros) / SLOT) as u32
}

/// A list for each of so many slots, with nothing in it.
fn empty_lists(alloc: Global, slots: u32) -> Result<Vec<Vec<Leaf>>, AllocError>
    ensures { IfOk result (λ lists. plain_lists lists.items ≡ replicate slots []) }
{
    let mut lists = Vec::with_capacity(alloc, slots as usize)?;
    for _ in 0..slots {
        let list = Vec::new(alloc);
        lists.push(list)?;
    }
    Ok(lists)
}

/// What is told of these roots, a list for each slot. The leaves are those of the roots, one root behind another.
fn told_by_slot(
    alloc: Global,
    problem: &Problem,
    roots: &[Cell],
    leaves: &[Leaf],
) -> Result<Vec<Vec<Leaf>>, AllocError>
    requires roots { All (λ root. IsListed (plain_problem problem.now) (plain_cell root)) roots.now }
    requires leaves { plain_leaves leaves.now ≡ leaves_of_roots (plain_problem problem.now) (plain_cells roots.now) }
    ensures { IfOk result (λ lists. plain_lists lists.items
        ≡ map (told_at (plain_problem problem.now) (plain_cells roots.now)) (slots_of (plain_problem problem.now))) }
{
    let mut lists = empty_lists(alloc, slot_count(problem.window))?;
    let mut rest = leaves;
    for root in roots {
        let (own, behind) = rest.split_at(count_to(rest, root.last));
        let slot = slot_at(problem.window.first, root.first);
        tell_in(own, slot, &mut lists)?;
        rest = behind;
    }
    Ok(lists)
}

/// Some lists in one, one list behind another.
fn in_one(alloc: Global, lists: &[Vec<Leaf>]) -> Result<Vec<Leaf>, AllocError>
    ensures { IfOk result (λ all. all.items ≡ flat_map (λ list. list.items) lists.now) }
{
    let mut all = Vec::new(alloc);
    for list in lists {
        all.extend_from_slice(list)?;
    }
    Ok(all)
}

/// The leaves that are told of a problem, in order of slot, pair and time, from the roots of all candidates and their leaves, both in order
/// of pair and time.
pub fn told_of_list(
    alloc: Global,
    problem: &Problem,
    roots: &[Cell],
    leaves: &[Leaf],
) -> Result<Vec<Leaf>, AllocError>
    requires roots { plain_cells roots.now ≡ roots_of (is_candidate (plain_problem problem.now)) (plain_problem problem.now) }
    requires leaves { plain_leaves leaves.now ≡ leaves_in_order (plain_problem problem.now) }
    ensures { IfOk result (λ told. plain_leaves told.items ≡ told_leaves (plain_problem problem.now)) }
{
    acceptance(problem);
    let lists = told_by_slot(alloc, problem, roots, leaves)?;
    in_one(alloc, &lists)
}
