ghost use Rattle.std.specs.Prelude.{◌≡◌, ℕ, ◌+◌, ◌≤◌, length, All};
ghost use Rattle.cj_case.specs.Problems.{plain_problem};
ghost use Rattle.cj_pool.specs.Hands.{cells_of};
ghost use Rattle.cj_pool.specs.Tree.{InTree, IsLeafOf};
ghost use Rattle.cj_pool.specs.Weights.{weigh, has};

use crate::run::Run;
use crate::station::Station;
use arrayvec::ArrayVec;
use cj_case::{Cell, Leaf};
use cj_cells::Looker;
use cj_ledger::Share;
use std::marker::{Model, PhantomData};

/// A worker on the cells of a refinery: its deque, the cells that it keeps, and the leaves that it has closed. Its type keeps that
/// the problem is the run's, that each leaf is what its cell was found to be, and that no cell is lost.
#[derive(Drop)]
pub struct Hand<'p, K: Run> {
    pub(crate) looker: Looker<'p>,
    pub(crate) station: Station<K>,
    pub(crate) kept: ArrayVec<Cell, 32>,
    pub(crate) leaves: Vec<Leaf>,
    pub(crate) share: Share,
    /// Leaves whose close the ledger was not told yet.
    pub(crate) uncounted: u64,
    pub(crate) wants: u64,
    pub(crate) of: PhantomData<K>,
}

impl<'p, K: Run> Model for Hand<'p, K> {
    ghost use Rattle.std.specs.Prelude.{◌≡◌, length};
    ghost use Rattle.crossbeam_deque.specs.Handles.{worker_deque, worker_view};
    ghost use Rattle.cj_case.specs.Problems.{plain_problem};
    ghost use Rattle.cj_pool.specs.Hands.{HandSeen, Accounts, hand_seen};
    ghost use Rattle.cj_pool.specs.Passes.{deques, takens, AreReady, IsSeated};

    ghost Value = { HandSeen };

    ghost view = { λ h. hand_seen h.station.number h.looker (deques h.station.below.items) (worker_deque h.station.own) (deques h.station.above.items)
        (takens h.station.below.items) (worker_view h.station.own) (takens h.station.above.items) h.kept.items h.leaves.items h.share h.uncounted h.wants };

    ghost invariant = { λ h. (h.looker ≡ K.problem) × AreReady h.station.below.items × AreReady h.station.above.items
        × IsSeated K.workers h.station.own × (length h.station.below.items ≡ h.station.number)
        × Accounts (plain_problem K.problem) K.roots K.workers (hand_seen h.station.number h.looker (deques h.station.below.items) (worker_deque h.station.own) (deques h.station.above.items)
        (takens h.station.below.items) (worker_view h.station.own) (takens h.station.above.items) h.kept.items h.leaves.items h.share h.uncounted h.wants) };
}

impl<'p, K: Run> Hand<'p, K> {
    /// What is known of every hand: it does nothing.
    pub fn account(&self)
        ensures problem { self.now.problem ≡ K.problem }

        // At each tick of a pair, what the hand took is what it closed, pushed and keeps.
        ensures balanced { (a b m : ℕ) → weigh (weigh (has a b m)) self.now.taken
            ≡ weigh (has a b m) (cells_of self.now.closed) + weigh (has a b m) self.now.pushed + weigh (has a b m) self.now.kept }

        // The cells that it keeps are in the tree of a root, and each leaf is what its cell was found to be.
        ensures tree { All (InTree (plain_problem K.problem) K.roots) self.now.kept }
        ensures leaves { All (IsLeafOf (plain_problem K.problem) K.roots) self.now.closed }

        // Its share counts its leaves, but for some that it counts later, and its halvings.
        ensures closes { self.now.share.count.closes + self.now.uncounted ≡ length self.now.closed }
        ensures splits { self.now.share.count.firsts + weigh length self.now.taken
            ≡ length self.now.closed + length self.now.pushed + length self.now.kept }
        ensures pushes { length self.now.pushed ≤ self.now.share.count.firsts }
        ensures few { length self.now.kept ≤ 27 }
    {
        let _wants = self.wants;
    }

    /// The number of the hand.
    pub fn number(&self) -> u32
        ensures { result ≡ self.now.number }
    {
        self.station.number
    }

    /// How many of its turns wanted memory.
    pub fn wants(&self) -> u64
        ensures { result ≡ self.now.wants }
    {
        self.wants
    }
}
