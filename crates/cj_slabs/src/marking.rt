//! The near and undecided leaves of a problem, in order of pair and time.
ghost use Rattle.std.specs.Prelude.{◌≡◌, ◌<◌, IfOk, filter, get_or, length};
ghost use Rattle.std.specs.List.Sorted.{IsPermutation};
ghost use Rattle.cj_case.specs.Leaves.{plain_leaves};
ghost use Rattle.cj_case.specs.Order.{AreInOrder, HaveTicks};
ghost use Rattle.cj_case.specs.PlainProblems.{PlainProblem};
ghost use Rattle.cj_bezier.specs.ToldLeaves.{told_leaves};
ghost use Rattle.cj_cells.specs.Lists.{list_candidates};
ghost use Rattle.cj_slabs.specs.Marks.{AreMarked, is_marked};
ghost use Rattle.cj_slabs.specs.Slabs.{leaves_listed};

use crate::far_leaves::is_far;
use crate::sifted::Sifted;
use cj_case::Leaf;
use cj_threads::{Nobody, Placed, all_made, map_dealt, merge_runs};
use std::alloc::{AllocError, Global};
use std::thread::Threads;

/// The near and undecided leaves of a slab. They are sorted, so that merging them takes one pass; no clause hangs on their order.
fn marked_of(alloc: Global, slab: &[Leaf]) -> Result<Vec<Leaf>, AllocError>
    ensures { IfOk result (λ marks. IsPermutation (filter is_marked slab.now) marks.items) }
{
    let mut marks = Vec::new(alloc);
    for leaf in slab {
        if !is_far(leaf) {
            marks.push(*leaf)?;
        }
    }
    marks.sort_by_key(|leaf: &Leaf| leaf.place())?;
    Ok(marks)
}

/// Those of each slab, by as many threads as there are workers: each takes the next slab.
fn marked_each<R: Threads + Sync>(
    rt: &R,
    alloc: Global,
    slabs: &[Vec<Leaf>],
    workers: u32,
) -> Result<Vec<Vec<Leaf>>, AllocError>
    ensures { IfOk result (λ lists. IsPermutation (filter is_marked (leaves_listed slabs.now)) (leaves_listed lists.items)) }
{
    let mark = |number: usize| -> Result<Vec<Leaf>, AllocError>
        requires { number < length slabs.now }
        ensures { (d : _) → IfOk result (λ marks. IsPermutation (filter is_marked (get_or slabs.entry.now number d).items) marks.items) }
    { marked_of(alloc, &slabs[number]) };
    let lists = map_dealt(rt, alloc, slabs.len(), workers as usize, &Nobody, &mark)?;
    all_made(alloc, lists)
}

/// The near and undecided leaves of what is found of a problem, in order of pair and time, by as many threads as there are workers.
pub fn marked<R: Threads + Sync>(
    rt: &R,
    alloc: Global,
    found: &Sifted,
    workers: u32,
) -> Result<Vec<Leaf>, AllocError>
    ensures { (case : PlainProblem) → plain_leaves (leaves_listed found.now.slabs.items) ≡ told_leaves case
        → HaveTicks (list_candidates case) → AreInOrder (list_candidates case) → IfOk result (λ leaves. AreMarked case leaves.items) }
{
    let lists = marked_each(rt, alloc, &found.slabs, workers)?;
    merge_runs(rt, alloc, lists, workers as usize)
}
