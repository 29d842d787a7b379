//! Leaves in order of pair and tick.
ghost use Rattle.std.specs.Prelude.{take, AllPairs, OnOk};
ghost use Rattle.std.specs.List.Sorted.{IsPermutation};
ghost use Rattle.cj_case.specs.Cells.{IsRootUpTo};
ghost use Rattle.cj_case.specs.Cells.{plain_cells};
ghost use Rattle.cj_pool.specs.Hands.{cells_of};

use cj_case::Leaf;
use std::alloc::AllocError;

/// Puts leaves in order. They are runs in order, which a stable sort merges; it wants memory, and does without where there is none.
pub(crate) fn sort(leaves: &mut Vec<Leaf>)
    ensures permutation { IsPermutation leaves.old.items leaves.new.items }
    ensures ordered { AllPairs IsRootUpTo (plain_cells (cells_of leaves.new.items)) }
{
    match merge(leaves) {
        Ok(()) => (),
        Err(_) => leaves.sort_unstable_by_key(|leaf| (leaf.cell.pair, leaf.cell.first)),
    }
}

/// Puts leaves in order of which so many at the front are: where there are no others, nothing is to be done.
pub(crate) fn merge_from(leaves: &mut Vec<Leaf>, sorted: usize) -> Result<(), AllocError>
    requires { AllPairs IsRootUpTo (plain_cells (cells_of (take sorted leaves.old.items))) }
    ensures permutation { IsPermutation leaves.old.items leaves.new.items }
    ensures ordered { OnOk result (AllPairs IsRootUpTo (plain_cells (cells_of leaves.new.items))) }
{
    if leaves.len() > sorted {
        return merge(leaves);
    }
    Ok(())
}

/// Puts leaves in order that are a few runs, each in order: the runs are merged.
fn merge(leaves: &mut Vec<Leaf>) -> Result<(), AllocError>
    ensures permutation { IsPermutation leaves.old.items leaves.new.items }
    ensures ordered { OnOk result (AllPairs IsRootUpTo (plain_cells (cells_of leaves.new.items))) }
{
    leaves.sort_by_key(|leaf| (leaf.cell.pair, leaf.cell.first))
}
