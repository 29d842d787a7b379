ghost use Rattle.std.specs.Prelude.{◌≡◌, ◌+◌, ◌<◌, IfNone};
ghost use Rattle.cj_ledger.specs.Counts.{told_live, told_halts, after_split, after_closes, after_halt};
ghost use Rattle.cj_ledger.specs.Shares.{IsOf};
ghost use Rattle.cj_ledger.specs.Words.{why_of};

use crate::count::{Count, Opening};
use crate::plays::{
    AddsLeaf, AddsLive, Closes, ClosesAndSplits, LoadsHalts, LoadsLive, SetsCells, SetsMemory,
};
use crate::rule::WordsAreSums;
use crate::words::{CELLS, HALTS, LEAVES, LIVE, MEMORY};
use crate::{Share, Why};
use atomic_table::Table;
use std::alloc::Global;
use std::marker::Model;

/// The words that the shares count with. Contracts see which ledger it is, and how it was opened. No call waits.
#[derive(Drop)]
pub struct Ledger {
    pub(crate) table: Table<(), Count, Opening, WordsAreSums, Global>,
    pub(crate) opening: Opening,
}

impl Model for Ledger {
    ghost use Rattle.std.specs.Prelude.{◌≡◌, ◌<◌};
    ghost use Rattle.cj_ledger.specs.Shares.{LedgerSeen};

    ghost Value = { LedgerSeen };

    ghost view = { λ l. record { id = l.table.shared.table_id; opening = l.opening } };

    ghost invariant = { λ l. (l.table.shared.key ≡ l.opening) × (l.table.shared.table_id.words ≡ 33) × (0 < l.opening.shares) };
}

impl Ledger {
    /// Counts a cell that is halved: one live cell more, and then one leaf more. Answers the number of leaves.
    pub fn split(&self, share: &mut Share) -> u64
        requires { IsOf self.now share.old }
        ensures ledger { share.new.ledger ≡ share.old.ledger }
        ensures count { share.new.count ≡ after_split share.old.count result }
    {
        let words = &self.table.shared;
        words.fetch_add::<AddsLive>(&mut share.seat, LIVE, 1);
        words
            .fetch_add::<AddsLeaf>(&mut share.seat, LEAVES, 1)
            .wrapping_add(1)
    }

    /// Counts a cell that became a leaf before, and one that is halved now, in one step: so many live cells as before, and one leaf
    /// more. Answers the number of leaves.
    pub fn close_and_split(&self, share: &mut Share) -> u64
        requires { IsOf self.now share.old }
        ensures ledger { share.new.ledger ≡ share.old.ledger }
        ensures count { share.new.count ≡ after_split (after_closes share.old.count 1) result }
    {
        self.table
            .shared
            .fetch_add::<ClosesAndSplits>(&mut share.seat, LEAVES, 1)
            .wrapping_add(1)
    }

    /// Counts so many cells that became leaves: so many live cells less.
    pub fn close(&self, share: &mut Share, cells: u64)
        requires { IsOf self.now share.old }
        ensures ledger { share.new.ledger ≡ share.old.ledger }
        ensures count { share.new.count ≡ after_closes share.old.count cells }
    {
        self.table
            .shared
            .fetch_sub::<Closes>(&mut share.seat, LIVE, cells);
    }

    /// The number of live cells at a step of this call.
    pub fn live(&self, share: &mut Share) -> u64
        requires { IsOf self.now share.old }
        ensures ledger { share.new.ledger ≡ share.old.ledger }
        ensures count { share.new.count ≡ told_live share.old.count result }
    {
        self.table.shared.load::<LoadsLive>(&mut share.seat, LIVE)
    }

    /// Tells all shares to stop.
    pub fn halt(&self, share: &mut Share, why: Why)
        requires { IsOf self.now share.old }
        ensures ledger { share.new.ledger ≡ share.old.ledger }
        ensures count { share.new.count ≡ after_halt why share.old.count }
    {
        let words = &self.table.shared;
        match why {
            Why::Cells => words.fetch_or::<SetsCells>(&mut share.seat, HALTS, CELLS),
            Why::Memory => words.fetch_or::<SetsMemory>(&mut share.seat, HALTS, MEMORY),
        };
    }

    /// Why the shares are to stop, at a step of this call: `Cells` before `Memory`, and `None` where they are to go on.
    pub fn halted(&self, share: &mut Share) -> Option<Why>
        requires { IsOf self.now share.old }
        ensures ledger { share.new.ledger ≡ share.old.ledger }
        ensures count { share.new.count ≡ told_halts share.old.count share.new.count.halts.last }
        ensures bits { share.new.count.halts.last < 4 }
        ensures set { 0 < share.old.count.cells + share.old.count.memory → 0 < share.new.count.halts.last }
        ensures none { IfNone result (share.new.count.halts.last ≡ 0) }
        ensures why { result ≡ why_of share.new.count.halts.last }
    {
        let halts = self.table.shared.load::<LoadsHalts>(&mut share.seat, HALTS);
        if halts & CELLS != 0 {
            Some(Why::Cells)
        } else if halts & MEMORY != 0 {
            Some(Why::Memory)
        } else {
            None
        }
    }
}
