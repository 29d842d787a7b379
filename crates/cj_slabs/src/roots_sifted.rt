//! Roots and their leaves: those of a root that is far throughout are counted alone, those of all others are told too.
ghost use Rattle.std.specs.Prelude.{◌≡◌, ◌+◌, ◌<◌, ◌≤◌, ◌++◌, [], ◌∷◌, length, map, All, IfSome, OnOk, IsErrOf};
ghost use Rattle.cj_case.specs.Cells.{plain_cell, plain_cells};
ghost use Rattle.cj_case.specs.Leaves.{plain_leaves};
ghost use Rattle.cj_case.specs.Pairs.{objects_of};
ghost use Rattle.cj_case.specs.Problems.{plain_problem};
ghost use Rattle.cj_hermite.specs.Roots.{KeepPieces, roots_in_slot};
ghost use Rattle.cj_bezier.specs.RootLeaves.{leaves_of_root, leaves_of_roots};
ghost use Rattle.cj_slabs.specs.Slabs.{AddRoots, told_of};

use crate::closing::Cuts;
use crate::far_leaves::are_far;
use crate::scratch::Scratch;
use crate::slab::Slab;
use cj_case::{Cell, Leaf, Pair, Problem, slot_window};
use cj_cells::{RefineError, roots_of_slot};
use std::alloc::{AllocError, Global};

/// Tells the leaves of a root: all of them, or none where each is far.
fn tell_leaves(leaves: &[Leaf], told: &mut Vec<Leaf>) -> Result<(), AllocError>
    ensures { OnOk result (plain_leaves told.new.items ≡ plain_leaves told.old.items ++ told_of (plain_leaves leaves.now)) }
{
    if are_far(leaves) {
        return Ok(());
    }
    told.extend_from_slice(leaves)?;
    Ok(())
}

/// A root whose ticks have the same two pieces. The list of leaves is filled anew.
fn sift_root(
    alloc: Global,
    cuts: &mut Cuts<'_>,
    root: Cell,
    limit: u64,
    leaves: &mut Vec<Leaf>,
    slab: &mut Slab,
) -> Result<(), RefineError>
    requires pieces { KeepPieces (plain_problem cuts.old) root.pair.a root.pair.b root.first.micros root.last.micros }
    requires room { slab.old.counts.leaves ≤ limit }
    ensures same { cuts.new ≡ cuts.old }
    ensures added { OnOk result (AddRoots (plain_problem cuts.old) (plain_cell root ∷ []) slab.old slab.new) }
    ensures within { OnOk result (slab.new.counts.leaves ≤ limit) }
    ensures too_many { IsErrOf result RefineError.TooMany
        → limit < slab.old.counts.leaves + length (leaves_of_root (plain_problem cuts.old) (plain_cell root)) }
{
    leaves.clear();
    cuts.refine(alloc, root, limit - slab.counts.leaves, leaves)?;
    tell_leaves(leaves, &mut slab.told)?;
    slab.counts = slab.counts.with_root(leaves);
    Ok(())
}

/// Roots whose ticks have the same two pieces each.
fn sift_roots(
    alloc: Global,
    cuts: &mut Cuts<'_>,
    roots: &[Cell],
    limit: u64,
    leaves: &mut Vec<Leaf>,
    slab: &mut Slab,
) -> Result<(), RefineError>
    requires pieces { All (λ cell. KeepPieces (plain_problem cuts.old) cell.pair.a cell.pair.b cell.first.micros cell.last.micros) roots.now }
    requires room { slab.old.counts.leaves ≤ limit }
    ensures same { cuts.new ≡ cuts.old }
    ensures added { OnOk result (AddRoots (plain_problem cuts.old) (plain_cells roots.now) slab.old slab.new) }
    ensures within { OnOk result (slab.new.counts.leaves ≤ limit) }
    ensures too_many { IsErrOf result RefineError.TooMany
        → limit < slab.old.counts.leaves + length (leaves_of_roots (plain_problem cuts.old) (plain_cells roots.now)) }
{
    for root in roots {
        sift_root(alloc, cuts, *root, limit, leaves, slab)?;
    }
    Ok(())
}

/// The roots of pairs of existing objects in a slot, by a search for each.
fn sift_searched(
    alloc: Global,
    problem: &Problem,
    slot: u32,
    pairs: &[Pair],
    limit: u64,
    scratch: &mut Scratch<'_>,
    slab: &mut Slab,
) -> Result<(), RefineError>
    requires exist { All (λ pair. pair.b < length problem.now.tracks) pairs.now }
    requires cuts { scratch.old.cuts ≡ problem.now }
    requires room { slab.old.counts.leaves ≤ limit }
    ensures cuts { scratch.new.cuts ≡ scratch.old.cuts }
    ensures added { OnOk result (AddRoots (plain_problem problem.now)
        (roots_in_slot (plain_problem problem.now) slot (map objects_of pairs.now)) slab.old slab.new) }
    ensures within { OnOk result (slab.new.counts.leaves ≤ limit) }
    ensures too_many { IsErrOf result RefineError.TooMany → limit < slab.old.counts.leaves
        + length (leaves_of_roots (plain_problem problem.now) (roots_in_slot (plain_problem problem.now) slot (map objects_of pairs.now))) }
{
    let room = limit - slab.counts.leaves;
    scratch.roots.clear();
    roots_of_slot(
        alloc,
        problem,
        slot,
        pairs,
        room,
        &mut scratch.hints,
        &mut scratch.roots,
    )?;
    sift_roots(
        alloc,
        &mut scratch.cuts,
        &scratch.roots,
        limit,
        &mut scratch.leaves,
        slab,
    )
}

/// The one root of a pair in a slot, where each of both objects is at one piece over all of the slot's ticks.
fn whole_root(problem: &Problem, slot: u32, pair: Pair, cuts: &mut Cuts<'_>) -> Option<Cell>
    requires { cuts.old ≡ problem.now }
    ensures same { cuts.new ≡ cuts.old }
    ensures root { IfSome result (λ root. roots_in_slot (plain_problem problem.now) slot (objects_of pair ∷ []) ≡ plain_cell root ∷ []) }
    ensures pieces { IfSome result (λ root. KeepPieces (plain_problem problem.now) root.pair.a root.pair.b root.first.micros root.last.micros) }
{
    let ticks = slot_window(problem.window, slot)?;
    if cuts.are_whole(pair, ticks) {
        Some(Cell {
            pair,
            root: 0,
            first: ticks.first,
            last: ticks.last,
        })
    } else {
        None
    }
}

/// The roots of a pair of existing objects in a slot.
fn sift_pair(
    alloc: Global,
    problem: &Problem,
    slot: u32,
    pair: Pair,
    limit: u64,
    scratch: &mut Scratch<'_>,
    slab: &mut Slab,
) -> Result<(), RefineError>
    requires exists { pair.b < length problem.now.tracks }
    requires cuts { scratch.old.cuts ≡ problem.now }
    requires room { slab.old.counts.leaves ≤ limit }
    ensures cuts { scratch.new.cuts ≡ scratch.old.cuts }
    ensures added { OnOk result (AddRoots (plain_problem problem.now)
        (roots_in_slot (plain_problem problem.now) slot (objects_of pair ∷ [])) slab.old slab.new) }
    ensures within { OnOk result (slab.new.counts.leaves ≤ limit) }
    ensures too_many { IsErrOf result RefineError.TooMany → limit < slab.old.counts.leaves
        + length (leaves_of_roots (plain_problem problem.now) (roots_in_slot (plain_problem problem.now) slot (objects_of pair ∷ []))) }
{
    match whole_root(problem, slot, pair, &mut scratch.cuts) {
        Some(root) => sift_root(
            alloc,
            &mut scratch.cuts,
            root,
            limit,
            &mut scratch.leaves,
            slab,
        ),
        None => sift_searched(alloc, problem, slot, &[pair], limit, scratch, slab),
    }
}

/// The roots of pairs of existing objects in a slot.
pub fn sift_pairs(
    alloc: Global,
    problem: &Problem,
    slot: u32,
    pairs: &[Pair],
    limit: u64,
    scratch: &mut Scratch<'_>,
    slab: &mut Slab,
) -> Result<(), RefineError>
    requires exist { All (λ pair. pair.b < length problem.now.tracks) pairs.now }
    requires cuts { scratch.old.cuts ≡ problem.now }
    requires room { slab.old.counts.leaves ≤ limit }
    ensures cuts { scratch.new.cuts ≡ scratch.old.cuts }
    ensures added { OnOk result (AddRoots (plain_problem problem.now)
        (roots_in_slot (plain_problem problem.now) slot (map objects_of pairs.now)) slab.old slab.new) }
    ensures within { OnOk result (slab.new.counts.leaves ≤ limit) }
    ensures too_many { IsErrOf result RefineError.TooMany → limit < slab.old.counts.leaves
        + length (leaves_of_roots (plain_problem problem.now) (roots_in_slot (plain_problem problem.now) slot (map objects_of pairs.now))) }
{
    for pair in pairs {
        sift_pair(alloc, problem, slot, *pair, limit, scratch, slab)?;
    }
    Ok(())
}
