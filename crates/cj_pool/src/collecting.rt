//! What all hands have come to.
ghost use Rattle.std.specs.Prelude.{◌≡◌, length, map, All, AllPairs, IfOk};
ghost use Rattle.std.specs.List.{range_with_len};
ghost use Rattle.std.specs.List.Sorted.{IsPermutation};
ghost use Rattle.cj_case.specs.Cells.{IsRootUpTo};
ghost use Rattle.cj_case.specs.Cells.{plain_cells};
ghost use Rattle.cj_pool.specs.Hands.{IsHandOf, cells_of, settled_share};
ghost use Rattle.cj_pool.specs.Refined.{AreAll, IsOfRun, IsSoundRun, leaves_in, numbers_of};

use crate::emptied::Emptied;
use crate::hand::Hand;
use crate::joining::gather;
use crate::refinery::Refinery;
use crate::run::Run;
use crate::taking::take_apart;
use cj_case::{Cell, Leaf};
use cj_ledger::Share;
use cj_threads::merge_runs;
use std::alloc::{AllocError, Global};
use std::thread::Threads;

/// What the hands of a refinery have come to.
#[derive(Drop)]
pub(crate) struct Collected<'p> {
    /// The leaves that they have closed, in order.
    pub leaves: Vec<Leaf>,
    /// The cells that they keep, and those that are left in the deques.
    pub cells: Vec<Cell>,
    pub shares: Vec<Share>,
    pub emptied: Emptied<'p>,
}

impl<'p, K: Run> Refinery<'p, K> {
    /// Takes all hands apart, empties their deques and gives them up, and then merges the leaves by as many threads as there are hands.
    pub(crate) fn collect<R: Threads + Sync>(
        self,
        rt: &R,
        alloc: Global,
        hands: Vec<Hand<'p, K>>,
    ) -> Result<Collected<'p>, AllocError>
        requires run { IsOfRun K.problem K.roots K.workers self }
        requires sound { IsSoundRun self }
        requires hands { All (IsHandOf self) hands.items }
        requires all { numbers_of hands.items ≡ range_with_len 0 self.hands }
        ensures all { IfOk result (λ found. AreAll self.entry hands.entry.items found.cells.items) }
        ensures leaves { IfOk result (λ found. IsPermutation (leaves_in hands.entry.items) found.leaves.items) }
        ensures ordered { IfOk result (λ found. AllPairs IsRootUpTo (plain_cells (cells_of found.leaves.items))) }
        ensures shares { IfOk result (λ found. found.shares.items ≡ map settled_share hands.entry.items) }
        ensures problem { IfOk result (λ found. found.emptied.problem.now ≡ self.entry.problem) }
        ensures limit { IfOk result (λ found. found.emptied.limit ≡ self.entry.limit) }
        ensures ledger { IfOk result (λ found. found.emptied.ledger ≡ self.entry.ledger) }
        ensures opening { IfOk result (λ found. found.emptied.ledger.opening ≡ record { roots = length self.entry.roots; shares = self.entry.hands }) }
    {
        let parts = take_apart(alloc, &self, hands)?;
        let mut cells = parts.kept;
        gather(parts.stations, &mut cells)?;
        let emptied = self.without_deques();
        let hands = parts.runs.len();
        let leaves = merge_runs(rt, alloc, parts.runs, hands)?;
        Ok(Collected {
            leaves,
            cells,
            shares: parts.shares,
            emptied,
        })
    }
}
