//! The run of a hand.
ghost use Rattle.std.specs.Prelude.{◌≡◌, ◌⊎◌, ◌+◌, ◌<◌, true, MatchBool};
ghost use Rattle.cj_ledger.specs.declared.why.Why.{Why};
ghost use Rattle.cj_pool.specs.declared.turn.Turn.TheVariants.{Done, Halted};
ghost use Rattle.cj_pool.specs.Hands.{IsHandOf, SameHand};
ghost use Rattle.cj_pool.specs.Turns.{Ended, Rose, SetsCells};

use crate::hand::Hand;
use crate::refinery::Refinery;
use crate::run::Run;
use crate::sorting::sort;
use crate::turn::Turn;
use cj_io::Gate;
use cj_ledger::Why;
use std::alloc::Global;
use std::sync::Wait;
use std::thread;

/// Lets other threads go on, where a turn found no cell.
fn rest(turn: Turn) {
    if let Turn::Idle { live: _ } = turn {
        thread::yield_now();
    }
}

/// Tells a gate what a turn of a worker came to.
fn tell<G: Gate>(gate: &G, worker: u32, turn: Turn) {
    match turn {
        Turn::Closed => gate.looked(worker, 0, 1),
        Turn::Split | Turn::Kept => gate.looked(worker, 1, 0),
        Turn::Idle { live: _ } | Turn::Done | Turn::Halted { why: _ } => {}
    }
}

/// Whether a hand takes no turn after one that came to this.
fn is_last(turn: Turn) -> bool
    ensures done { turn ≡ Done → result ≡ true }
    ensures halted { (why : Why) → turn ≡ Halted why → result ≡ true }
    ensures others { result ≡ true → (turn ≡ Done) ⊎ ((why : Why) × (turn ≡ Halted why)) }
{
    match turn {
        Turn::Closed => false,
        Turn::Split => false,
        Turn::Kept => false,
        Turn::Idle { live: _ } => false,
        Turn::Done => true,
        Turn::Halted { why: _ } => true,
    }
}

impl<'p, K: Run> Hand<'p, K> {
    /// A turn, and whether it was the last one. Where it wants memory, it tells the others to stop.
    fn step<G: Gate>(&mut self, alloc: Global, gate: &G, refinery: &Refinery<'p, K>) -> bool
        requires { IsHandOf refinery.now self.old }
        ensures hand { IsHandOf refinery.now self.new × SameHand self.old self.new }

        // The last turn was told of the end, or told the others; each other one wanted no memory.
        ensures ended { MatchBool result (Ended self.new) (self.new.wants ≡ self.old.wants) }
        ensures memory { MatchBool result ((self.new.share.count.memory ≡ self.old.share.count.memory)
            ⊎ Rose self.old.wants self.new.wants) (self.new.share.count.memory ≡ self.old.share.count.memory) }
        ensures cells { SetsCells refinery.now.limit self.old.share.count self.new.share.count }
        ensures halts { 0 < self.old.share.count.cells + self.old.share.count.memory → (result ≡ true) × (self.new.share.count.leaves
            ≡ self.old.share.count.leaves) }
    {
        match self.turn(alloc, refinery) {
            Ok(turn) => {
                rest(turn);
                tell(gate, self.number(), turn);
                is_last(turn)
            }
            Err(_) => {
                refinery.ledger.halt(&mut self.share, Why::Memory);
                true
            }
        }
    }

    /// Puts the leaves that it has closed in order, which leaves less to do at the end.
    fn sort_leaves(&mut self)
        ensures same { SameHand self.old self.new }
        ensures deques { self.new.deques ≡ self.old.deques }
        ensures share { self.new.share ≡ self.old.share }
        ensures wants { self.new.wants ≡ self.old.wants }
    {
        sort(&mut self.leaves);
    }

    /// Takes turns until one is the last.
    fn take_turns<R: Wait, G: Gate>(
        &mut self,
        rt: &R,
        alloc: Global,
        refinery: &Refinery<'p, K>,
        gate: &G,
    )
        requires { IsHandOf refinery.now self.old }
        ensures hand { IsHandOf refinery.now self.new × SameHand self.old self.new }
        ensures ended { Ended self.new }
        ensures memory { (self.new.share.count.memory ≡ self.old.share.count.memory) ⊎ Rose self.old.wants self.new.wants }
        ensures cells { (self.new.share.count.cells ≡ self.old.share.count.cells) ⊎ ((refinery.now.limit < self.new.share.count.leaves.last)
            × (self.old.share.count.leaves.times < self.new.share.count.leaves.times)) }
    {
        let worker = self.number();
        let mut number: u64 = 0;
        for _ in rt.forever() {
            number = number.saturating_add(1);
            gate.enter(rt, worker, number);
            if self.step(alloc, gate, refinery) {
                return;
            }
        }
        unreachable!()
    }

    /// Takes turns until the cells are done or the hands are to stop. Where a turn wants memory, it tells the others to stop.
    pub fn run<R: Wait, G: Gate>(
        mut self,
        rt: &R,
        alloc: Global,
        refinery: &Refinery<'p, K>,
        gate: &G,
    ) -> Hand<'p, K>
        requires { IsHandOf refinery.now self }

        ensures hand { IsHandOf refinery.now result × SameHand self.entry result }
        ensures ended { Ended result }

        // It stops the others for want of memory only where it wanted some, and for too many cells only where a turn does.
        ensures memory { (result.share.count.memory ≡ self.entry.share.count.memory) ⊎ Rose self.entry.wants result.wants }
        ensures cells { (result.share.count.cells ≡ self.entry.share.count.cells) ⊎ ((refinery.now.limit < result.share.count.leaves.last)
            × (self.entry.share.count.leaves.times < result.share.count.leaves.times)) }
    {
        self.take_turns(rt, alloc, refinery, gate);
        self.sort_leaves();
        self
    }
}
