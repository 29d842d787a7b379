//! The leaves of a refinery, from what its hands have done.
ghost use Rattle.std.specs.Prelude.{◌≡◌, ℕ, ◌+◌, ◌^◌, ◌<◌, ◌≤◌, ◌++◌, List, length, take, vec_len, All, AllPairs, Contains, IfOk, IfErr, OnOk};
ghost use Rattle.std.specs.List.{range_with_len, sum_by};
ghost use Rattle.std.specs.List.Sorted.{IsPermutation};
ghost use Rattle.cj_case.specs.Problems.{plain_problem};
ghost use Rattle.cj_case.specs.declared.cell.Cell.{Cell};
ghost use Rattle.cj_case.specs.Cells.{plain_cells};
ghost use Rattle.cj_case.specs.Leaves.{plain_leaves};
ghost use Rattle.cj_bezier.specs.RootLeaves.{leaves_of_root, leaves_of_roots, Describe};
ghost use Rattle.cj_case.specs.Cells.{IsRootUpTo};
ghost use Rattle.cj_hermite.specs.Lengths.{HaveLengths};
ghost use Rattle.cj_ledger.specs.Shares.{IsOf};
ghost use Rattle.cj_pool.specs.Hands.{IsHandOf, cells_of};
ghost use Rattle.cj_pool.specs.declared.refined.FinishError.TheVariants.{Memory, TooMany};
ghost use Rattle.cj_pool.specs.Refined.{AreLeft, IsOfRun, IsSoundRun, IsTooMany, Stands, TotalsOf, leaves_wanted, numbers_of};
ghost use Rattle.cj_pool.specs.RootLists.{AreRoots, IsKept};
ghost use Rattle.cj_pool.specs.Tree.{InTree, IsLeafOf};
ghost use Rattle.cj_pool.specs.Weights.{weigh, has};

use crate::emptied::Emptied;
use crate::hand::Hand;
use crate::lengths::have_lengths;
use crate::refined::{FinishError, Refined};
use crate::refinery::Refinery;
use crate::run::Run;
use crate::sorting::merge_from;
use cj_case::{Cell, Leaf, Problem};
use cj_cells::{RefineError, refine};
use cj_ledger::{Share, Totals};
use std::alloc::Global;
use std::thread::Threads;

/// What a cell that could not be refined says of all.
fn refusal(error: RefineError, limit: u64) -> FinishError
    ensures memory { error ≡ RefineError.Memory → result ≡ Memory }
    ensures too_many { error ≡ RefineError.TooMany → result ≡ TooMany limit }
{
    match error {
        RefineError::Memory => FinishError::Memory,
        RefineError::TooMany => FinishError::TooMany { limit },
    }
}

/// Appends the leaves of cells that are still open.
fn refine_open(
    alloc: Global,
    problem: &Problem,
    cells: &[Cell],
    limit: u64,
    leaves: &mut Vec<Leaf>,
) -> Result<(), FinishError>
    requires kept { All (IsKept (plain_problem problem.now)) cells.now }
    requires lengths { HaveLengths (plain_problem problem.now) }
    ensures ok { OnOk result (plain_leaves leaves.new.items
        ≡ plain_leaves leaves.old.items ++ leaves_of_roots (plain_problem problem.now) (plain_cells cells.now)) }
    ensures within { OnOk result (vec_len leaves.new ≤ limit) }
    ensures kept { take (vec_len leaves.old) leaves.new.items ≡ leaves.old.items }
    ensures judged { OnOk result ((roots : List Cell) → AreRoots (plain_problem problem.now) roots
        → All (InTree (plain_problem problem.now) roots) cells.now
        → All (IsLeafOf (plain_problem problem.now) roots) leaves.old.items → All (IsLeafOf (plain_problem problem.now) roots) leaves.new.items) }
    ensures too_many { IfErr result (IsTooMany limit (vec_len leaves.old
        + length (leaves_of_roots (plain_problem problem.now) (plain_cells cells.now)))) }
{
    if leaves.len() as u64 > limit {
        return Err(FinishError::TooMany { limit });
    }
    for cell in cells {
        match refine(alloc, problem, *cell, limit, leaves) {
            Ok(()) => (),
            Err(error) => return Err(refusal(error, limit)),
        }
    }
    Ok(())
}

impl Emptied<'_> {
    /// These leaves, which are in order, and those of cells that are still open, in order of pair and tick.
    fn refine_rest(
        &self,
        alloc: Global,
        cells: &[Cell],
        mut leaves: Vec<Leaf>,
    ) -> Result<Vec<Leaf>, FinishError>
        requires kept { All (IsKept (plain_problem self.now.problem.now)) cells.now }
        requires lengths { HaveLengths (plain_problem self.now.problem.now) }
        requires ordered { AllPairs IsRootUpTo (plain_cells (cells_of leaves.items)) }
        ensures moved { IfOk result (λ sorted. IsPermutation (plain_leaves leaves.items
            ++ leaves_of_roots (plain_problem self.now.problem.now) (plain_cells cells.now)) (plain_leaves sorted.items)) }
        ensures ordered { IfOk result (λ sorted. AllPairs IsRootUpTo (plain_cells (cells_of sorted.items))) }
        ensures within { IfOk result (λ sorted. length sorted.items ≤ self.now.limit) }
        ensures among { IfOk result (λ sorted. All (λ leaf. Contains sorted.items leaf) leaves.items) }
        ensures judged { IfOk result (λ sorted. (roots : List Cell) → AreRoots (plain_problem self.now.problem.now) roots
            → All (InTree (plain_problem self.now.problem.now) roots) cells.now
            → All (IsLeafOf (plain_problem self.now.problem.now) roots) leaves.items
            → All (IsLeafOf (plain_problem self.now.problem.now) roots) sorted.items) }
        ensures too_many { IfErr result (IsTooMany self.now.limit (length leaves.items
            + length (leaves_of_roots (plain_problem self.now.problem.now) (plain_cells cells.now)))) }
    {
        let merged = leaves.len();
        refine_open(alloc, self.problem, cells, self.limit, &mut leaves)?;
        merge_from(&mut leaves, merged)?;
        Ok(leaves)
    }

    /// What was counted, once so many open cells have come to so many leaves.
    fn count(self, shares: Vec<Share>, refined: u64, added: u64) -> Totals
        requires mine { All (IsOf self.ledger) shares.items }
        requires all { length shares.items ≡ self.ledger.opening.shares }
        requires enough { refined ≤ added }
        requires few_splits { sum_by (λ s. s.count.firsts) shares.items + added < 2 ^ 64 }
        requires few_closes { sum_by (λ s. s.count.closes) shares.items + added < 2 ^ 64 }
        ensures roots { result.roots ≡ self.entry.ledger.opening.roots }
        ensures splits { result.splits + refined ≡ sum_by (λ s. s.count.firsts) shares.items + added }
        ensures closes { result.closes ≡ sum_by (λ s. s.count.closes) shares.items + added }
    {
        let totals = self.ledger.total(shares);
        Totals {
            roots: totals.roots,
            splits: totals.splits + (added - refined),
            closes: totals.closes + added,
        }
    }
}

impl<'p, K: Run> Refinery<'p, K> {
    /// What is so of the run and its roots, whatever the hands have done: it does nothing else than to look at the tracks.
    fn have_roots(&self)
        ensures run { IsOfRun K.problem K.roots K.workers self.now }
        ensures sound { IsSoundRun self.now }
        ensures single { (r : Cell) (m : ℕ) → Contains self.now.roots r → r.first.micros ≤ m → m ≤ r.last.micros
            → weigh (has r.pair.a r.pair.b m) self.now.roots ≡ 1 }
        ensures describe { All (λ root. Describe (plain_problem self.now.problem) root
            (leaves_of_root (plain_problem self.now.problem) root)) (plain_cells self.now.roots) }
    {
        have_lengths(self.problem);
    }

    /// The leaves of all roots, in order, from all hands of the refinery. Cells that are left are refined here.
    pub fn finish<R: Threads + Sync>(
        self,
        rt: &R,
        alloc: Global,
        hands: Vec<Hand<'p, K>>,
    ) -> Result<Refined, FinishError>
        requires hands { All (IsHandOf self) hands.items }
        requires all { numbers_of hands.items ≡ range_with_len 0 self.hands }

        // It refuses for memory, or exactly where there are more leaves than the limit.
        ensures refused { IfErr result (Stands self.entry) }
        ensures within { IfOk result (λ r. length r.leaves.items ≤ self.entry.limit) }

        // The leaves are those of the roots, each is what its cell was found to be, and those that the hands closed are among them.
        ensures value { IfOk result (λ r. plain_leaves r.leaves.items ≡ leaves_wanted self.entry) }
        ensures judged { IfOk result (λ r. All (IsLeafOf (plain_problem self.entry.problem) self.entry.roots) r.leaves.items) }
        ensures closed { IfOk result (λ r. All (λ h. All (λ leaf. Contains r.leaves.items leaf) h.closed) hands.entry.items) }
        ensures totals { IfOk result (λ r. TotalsOf (length self.entry.roots) (length r.leaves.items) r.totals) }

        // No cell was lost or made twice: each tick of a root is in just one cell.
        ensures once { OnOk result ((left : List Cell) × AreLeft self.entry hands.entry.items left) }
        ensures single { (r : Cell) (m : ℕ) → Contains self.entry.roots r → r.first.micros ≤ m → m ≤ r.last.micros
            → weigh (has r.pair.a r.pair.b m) self.entry.roots ≡ 1 }

        // The leaves of each root lie in order in it, hold each of its ticks, and each is true at each of its own.
        ensures describe { All (λ root. Describe (plain_problem self.entry.problem) root
            (leaves_of_root (plain_problem self.entry.problem) root)) (plain_cells self.entry.roots) }
    {
        self.have_roots();
        let found = self.collect(rt, alloc, hands)?;
        let cells = found.cells;
        let closed = found.leaves.len() as u64;
        let emptied = found.emptied;
        let leaves = emptied.refine_rest(alloc, &cells, found.leaves)?;
        let added = leaves.len() as u64 - closed;
        let totals = emptied.count(found.shares, cells.len() as u64, added);
        Ok(Refined { leaves, totals })
    }
}
