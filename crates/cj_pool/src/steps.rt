//! The steps on one deque.
ghost use Rattle.std.specs.Prelude.{◌≡◌, ◌<◌, List, [], ◌∷◌, length, MatchResult, MatchOption, IfOk};
ghost use Rattle.crossbeam_deque.specs.Handles.{view, IsPassOf, SamePass, SameWorker, worker_deque, worker_flavor, worker_view, stealer_deque};
ghost use Rattle.crossbeam_deque.specs.Steals.{MatchSteal};
ghost use Rattle.cj_case.specs.declared.cell.Cell.{Cell};
ghost use Rattle.cj_pool.specs.Accounts.{whole, with_opening, with_pushed, with_taken, less_a_part, new_pass, both, AreLeft, Owns, Settled};

use crate::rule::{Counts, CutsOff, DequePass, Opens, Owner, Puts, Steals, Takes, Thief};
use crate::run::Run;
use crate::work::Work;
use cj_ledger::Share;
use crossbeam_deque::Steal;
use std::alloc::{AllocError, Global};

/// An empty deque with room for so many cells at first, whose owner has all parts.
pub fn new_deque<K: Run>(alloc: Global, room: usize) -> Result<Owner<K>, AllocError>
    requires { 0 < K.workers }
    ensures { IfOk result (λ own. (worker_view own ≡ whole K.workers) × (worker_flavor own ≡ 0)) }
{
    Owner::fifo_as(alloc, room)
}

/// Pushes a root before the first turn.
pub fn open<K: Run>(own: &mut Owner<K>, work: Work<K>) -> Result<(), Work<K>>
    requires { Owns (worker_view own.old) }
    ensures same { SameWorker own.old own.new }
    ensures rule { MatchResult result (λ _. worker_view own.new ≡ with_opening (worker_view own.old) (work ∷ [])) (λ back. (back ≡ work)
        × (worker_view own.new ≡ worker_view own.old)) }
{
    own.push_as::<Opens>(work)
}

/// Pushes a half whose split the share has counted.
pub fn put<K: Run>(own: &mut Owner<K>, _share: &Share, work: Work<K>) -> Result<(), Work<K>>
    requires owner { Owns (worker_view own.old) }
    requires counted { length (worker_view own.old).pushed < _share.now.count.firsts }
    ensures same { SameWorker own.old own.new }
    ensures rule { MatchResult result (λ _. worker_view own.new ≡ with_pushed (worker_view own.old) (work ∷ [])) (λ back. (back ≡ work)
        × (worker_view own.new ≡ worker_view own.old)) }
{
    own.push_as::<Puts>(work)
}

/// The cell that was pushed first of those in the queue.
pub fn pop<K: Run>(own: &mut Owner<K>) -> Option<Work<K>>
    requires { (0 < (worker_view own.old).parts) × (worker_flavor own.old ≡ 0) }
    ensures same { SameWorker own.old own.new }
    ensures rule { MatchOption result ((worker_view own.new ≡ worker_view own.old) × Settled (worker_view own.old) [])
        (λ work. worker_view own.new ≡ with_taken (worker_view own.old) (work ∷ [])) }
{
    own.pop_as::<Takes>()
}

/// Tries once to take the first cell of another's queue.
pub fn steal<K: Run>(thief: &Thief<K>, pass: &mut DequePass<K>) -> Steal<Work<K>>
    requires { (0 < (view pass.old).parts) × IsPassOf (stealer_deque thief.now) pass.old }
    ensures same { SamePass pass.old pass.new }
    ensures rule { MatchSteal result (view pass.new ≡ view pass.old) (view pass.new ≡ view pass.old) (λ work. view pass.new
        ≡ with_taken (view pass.old) (work ∷ [])) }
{
    thief.steal_as::<Steals>(pass)
}

/// A pass with one part, which did nothing so far.
pub fn another<K: Run>(own: &mut Owner<K>) -> DequePass<K>
    requires { 1 < (worker_view own.old).parts }
    ensures same { SameWorker own.old own.new }
    ensures left { worker_view own.new ≡ less_a_part (worker_view own.old) }
    ensures pass { IsPassOf (worker_deque own.old) result }
    ensures right { view result ≡ new_pass (worker_view own.old) }
{
    own.another::<CutsOff>()
}

/// Takes a pass back, with what it did.
pub fn absorb<K: Run>(own: &mut Owner<K>, pass: DequePass<K>)
    requires { Owns (worker_view own.old) × IsPassOf (worker_deque own.old) pass }
    ensures same { SameWorker own.old own.new }
    ensures rule { worker_view own.new ≡ both (worker_view own.old) (view pass) }
{
    own.absorb::<CutsOff>(pass);
}

/// The number of cells in the queue at one moment.
pub fn queue_len<K: Run>(own: &mut Owner<K>) -> usize
    requires { Owns (worker_view own.old) }
    ensures same { SameWorker own.old own.new }
    ensures view { worker_view own.new ≡ worker_view own.old }
    ensures rule { (items : List Cell) × (length items ≡ result) × Settled (worker_view own.old) items × AreLeft (worker_view own.old) items }
{
    own.len_as::<Counts>()
}
