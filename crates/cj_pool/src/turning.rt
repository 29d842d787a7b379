//! One turn of a hand.
ghost use Rattle.std.specs.Prelude.{◌≡◌, ◌+◌, ◌-◌, ◌<◌, ◌≤◌, length, MatchResult, Ok};
ghost use Rattle.crossbeam_deque.specs.Handles.{SameWorker, worker_view};
ghost use Rattle.cj_case.specs.Problems.{plain_problem};
ghost use Rattle.cj_ledger.specs.declared.why.Why.{Why};
ghost use Rattle.cj_ledger.specs.Counts.{after_closes, told, told_live};
ghost use Rattle.cj_ledger.specs.Shares.{IsOf};
ghost use Rattle.cj_pool.specs.declared.turn.Turn.TheVariants.{Done, Halted, Idle, Kept};
ghost use Rattle.cj_pool.specs.Accounts.{Owns};
ghost use Rattle.cj_pool.specs.Hands.{IsHandOf, SameHand};
ghost use Rattle.cj_pool.specs.Parted.{AreKept, AreParted};
ghost use Rattle.cj_pool.specs.Tree.{InTree};
ghost use Rattle.cj_pool.specs.Turns.{LeavesEnough, Made, Wanted, SetsCells, one_want_more};

use crate::hand::Hand;
use crate::picking::pick;
use crate::refinery::Refinery;
use crate::rule::Owner;
use crate::run::Run;
use crate::steps::{put, queue_len};
use crate::turn::Turn;
use crate::work::Work;
use arrayvec::ArrayVec;
use cj_case::Cell;
use cj_cells::Look;
use cj_ledger::{Ledger, Share, Why};
use std::alloc::{AllocError, Global};

/// Counts a halving, and with it one of the leaves that are not counted yet, where there is one. Answers the number of leaves.
fn split(ledger: &Ledger, share: &mut Share, uncounted: &mut u64) -> u64
    requires { IsOf ledger.now share.old }
    ensures ledger { IsOf ledger.now share.new }
    ensures firsts { share.new.count.firsts ≡ share.old.count.firsts + 1 }
    ensures uncounted { uncounted.new ≡ uncounted.old - 1 }
    ensures closes { share.new.count.closes + uncounted.new ≡ share.old.count.closes + uncounted.old }
    ensures roots { share.new.count.roots ≡ share.old.count.roots }
    ensures halts { (share.new.count.cells ≡ share.old.count.cells) × (share.new.count.memory ≡ share.old.count.memory) }
    ensures told { share.new.count.leaves ≡ told share.old.count.leaves result }
{
    if *uncounted == 0 {
        return ledger.split(share);
    }
    *uncounted -= 1;
    ledger.close_and_split(share)
}

/// Counts a halving, and tells all hands to stop where there are then more leaves than the limit.
fn count_halving(ledger: &Ledger, share: &mut Share, uncounted: &mut u64, limit: u64)
    requires { IsOf ledger.now share.old }
    ensures ledger { IsOf ledger.now share.new }
    ensures firsts { share.new.count.firsts ≡ share.old.count.firsts + 1 }
    ensures closes { share.new.count.closes + uncounted.new ≡ share.old.count.closes + uncounted.old }
    ensures roots { share.new.count.roots ≡ share.old.count.roots }
    ensures memory { share.new.count.memory ≡ share.old.count.memory }
    ensures told { share.new.count.leaves.times ≡ share.old.count.leaves.times + 1 }
    ensures cells { SetsCells limit share.old.count share.new.count }
{
    if split(ledger, share, uncounted) > limit {
        ledger.halt(share, Why::Cells);
    }
}

/// Counts the leaves that are not counted yet.
fn count_leaves(ledger: &Ledger, share: &mut Share, uncounted: &mut u64)
    requires { IsOf ledger.now share.old }
    ensures none { uncounted.new ≡ 0 }
    ensures ledger { share.new.ledger ≡ share.old.ledger }
    ensures count { share.new.count ≡ after_closes share.old.count uncounted.old }
{
    if *uncounted > 0 {
        ledger.close(share, *uncounted);
        *uncounted = 0;
    }
}

/// What a hand is told that found no cell and has counted all of its leaves.
fn without_cell(ledger: &Ledger, share: &mut Share, _uncounted: u64) -> Turn
    requires ledger { IsOf ledger.now share.old }
    requires counted { _uncounted ≡ 0 }
    ensures ledger { share.new.ledger ≡ share.old.ledger }
    ensures count { share.new.count ≡ told_live share.old.count share.new.count.live.last }
    ensures done { share.new.count.live.last ≡ 0 → result ≡ Done }
    ensures idle { 0 < share.new.count.live.last → result ≡ Idle share.new.count.live.last }
{
    let live = ledger.live(share);
    if live == 0 {
        Turn::Done
    } else {
        Turn::Idle { live }
    }
}

/// So many cells in a hand's deque are enough for others to take.
const ENOUGH: usize = 4;

/// Keeps the first half of a cell, and pushes the second, or keeps it below the first: where there are cells enough for others, since
/// the next turns then look at one root, or where the push is refused.
fn part_halves<K: Run>(
    kept: &mut ArrayVec<Cell, 32>,
    own: &mut Owner<K>,
    share: &Share,
    first: Cell,
    second: Cell,
) -> Result<Turn, AllocError>
    requires room { length kept.old.items ≤ 26 }
    requires tree { InTree (plain_problem K.problem) K.roots second }
    requires owner { Owns (worker_view own.old) }
    requires counted { length (worker_view own.old).pushed < share.now.count.firsts }
    ensures same { SameWorker own.old own.new }
    ensures parted { MatchResult result (AreParted (worker_view own.old) (worker_view own.new) kept.old.items kept.new.items first second)
        (λ _. AreKept (worker_view own.old) (worker_view own.new) kept.old.items kept.new.items first second) }
{
    if queue_len(own) >= ENOUGH {
        kept.push(second);
        kept.push(first);
        return Ok(Turn::Kept);
    }
    match put(own, share, Work::new(second)) {
        Ok(()) => {
            kept.push(first);
            Ok(Turn::Split)
        }
        Err(work) => {
            kept.push(work.into_cell());
            kept.push(first);
            Err(AllocError)
        }
    }
}

impl<'p, K: Run> Hand<'p, K> {
    /// A turn, whose want of memory is not counted yet.
    fn attempt(&mut self, refinery: &Refinery<'p, K>) -> Result<Turn, AllocError>
        requires { IsHandOf refinery.now self.old }
        ensures hand { IsHandOf refinery.now self.new × SameHand self.old self.new }
        ensures made { MatchResult result (Made (plain_problem K.problem) refinery.now self.old self.new)
            (λ _. Wanted (plain_problem K.problem) self.old self.new) }
        ensures enough { result ≡ Ok Kept → LeavesEnough self.new }
        ensures wants { self.new.wants ≡ self.old.wants }
        ensures cells { SetsCells refinery.now.limit self.old.share.count self.new.share.count }
        ensures memory { self.new.share.count.memory ≡ self.old.share.count.memory }
        ensures halts { 0 < self.old.share.count.cells + self.old.share.count.memory → (why : Why) × (result ≡ Ok (Halted why)) }
    {
        if let Some(why) = refinery.ledger.halted(&mut self.share) {
            return Ok(Turn::Halted { why });
        }
        self.leaves.reserve(1)?;
        let picked = pick(
            &mut self.kept,
            &mut self.station,
            refinery.thieves.as_slice(),
        );
        let Some(cell) = picked else {
            count_leaves(&refinery.ledger, &mut self.share, &mut self.uncounted);
            return Ok(without_cell(&refinery.ledger, &mut self.share, self.uncounted));
        };
        match self.looker.look(cell) {
            Look::Closed(leaf) => {
                self.leaves.push_reserved(leaf);
                self.uncounted += 1;
                Ok(Turn::Closed)
            }
            Look::Halves(first, second) => {
                count_halving(
                    &refinery.ledger,
                    &mut self.share,
                    &mut self.uncounted,
                    refinery.limit,
                );
                part_halves(
                    &mut self.kept,
                    &mut self.station.own,
                    &self.share,
                    first,
                    second,
                )
            }
        }
    }

    /// One turn. It looks at one cell at most, and waits for nobody. A turn that is refused memory leaves every cell with the hand.
    pub fn turn(&mut self, _alloc: Global, refinery: &Refinery<'p, K>) -> Result<Turn, AllocError>
        requires { IsHandOf refinery.now self.old }

        // The hand stays what it is.
        ensures hand { IsHandOf refinery.now self.new × SameHand self.old self.new }

        // What the answer says was done.
        ensures made { MatchResult result (Made (plain_problem K.problem) refinery.now self.old self.new)
            (λ _. Wanted (plain_problem K.problem) self.old self.new) }

        // It keeps both halves only while it leaves enough in its deque for others, or where a push wants memory.
        ensures enough { result ≡ Ok Kept → LeavesEnough self.new }
        ensures wants { MatchResult result (λ _. self.new.wants ≡ self.old.wants) (λ _. self.new.wants ≡ one_want_more self.old.wants) }

        // It stops the others only for too many cells, and it stops where its hand has told the others to.
        ensures cells { SetsCells refinery.now.limit self.old.share.count self.new.share.count }
        ensures memory { self.new.share.count.memory ≡ self.old.share.count.memory }
        ensures halts { 0 < self.old.share.count.cells + self.old.share.count.memory → (why : Why) × (result ≡ Ok (Halted why)) }
    {
        match self.attempt(refinery) {
            Ok(turn) => Ok(turn),
            Err(want) => {
                self.wants = self.wants.saturating_add(1);
                Err(want)
            }
        }
    }
}
