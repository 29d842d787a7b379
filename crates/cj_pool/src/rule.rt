//! What holds of a deque between any two steps, and what each step tells.
use crate::account::Account;
use crate::run::Run;
use crate::work::Work;
use crossbeam_deque::protocol::{Join, Lesson, Outcome, Protocol, Split};
use crossbeam_deque::{Pass, Stealer, Worker};
use std::alloc::Global;
use std::marker::PhantomData;

/// The cells that were opened and pushed are those that were taken and those in the queue, and the owner alone opens and pushes.
pub struct Fair<K: Run> {
    of: PhantomData<K>,
}

impl<K: Run> Protocol<Work<K>, Account> for Fair<K> {
    ghost use Rattle.cj_pool.specs.Accounts.{Balanced, whole, nobody};

    ghost holds = { Balanced K.workers };

    ghost first = { whole K.workers };

    ghost guest = { nobody };
}

/// A root is pushed before the first turn.
pub struct Opens;

impl<K: Run> Outcome<Work<K>, Account> for Opens {
    ghost use Rattle.std.specs.Prelude.{◌≡◌};
    ghost use Rattle.cj_pool.specs.Accounts.{with_opening};

    ghost then = { λ old cells new. new ≡ with_opening old cells };
}

/// A half is pushed.
pub struct Puts;

impl<K: Run> Outcome<Work<K>, Account> for Puts {
    ghost use Rattle.std.specs.Prelude.{◌≡◌};
    ghost use Rattle.cj_pool.specs.Accounts.{with_pushed};

    ghost then = { λ old cells new. new ≡ with_pushed old cells };
}

/// A cell is popped. Where there is none, who has all parts knows that nothing is left.
pub struct Takes;

impl<K: Run> Outcome<Work<K>, Account> for Takes {
    ghost use Rattle.std.specs.Prelude.{◌≡◌, []};
    ghost use Rattle.cj_pool.specs.Accounts.{with_taken, Settled};

    ghost then = { λ old cells new. new ≡ with_taken old cells };

    ghost empty = { λ old. Settled old [] };
}

/// A cell is stolen.
pub struct Steals;

impl<K: Run> Outcome<Work<K>, Account> for Steals {
    ghost use Rattle.std.specs.Prelude.{◌≡◌};
    ghost use Rattle.cj_pool.specs.Accounts.{with_taken};

    ghost then = { λ old cells new. new ≡ with_taken old cells };
}

/// A pass gets one part, and is joined again with what it did.
pub struct CutsOff;

impl Split<Account> for CutsOff {
    ghost use Rattle.cj_pool.specs.Accounts.{less_a_part, new_pass};

    ghost left = { less_a_part };

    ghost right = { new_pass };
}

impl Join<Account> for CutsOff {
    ghost use Rattle.cj_pool.specs.Accounts.{both, nobody};

    ghost both = { both };

    ghost spent = { nobody };
}

/// What a count of the queue tells its owner.
pub struct Counts;

impl<K: Run> Lesson<Work<K>, Account> for Counts {
    ghost use Rattle.cj_pool.specs.Accounts.{AreLeft, Settled};

    ghost fact = { λ v items. Settled v items × AreLeft v items };
}

/// The end of a deque at which its hand pushes and pops.
pub type Owner<K> = Worker<Work<K>, Global, Account, Fair<K>>;

/// The end at which the other hands steal.
pub type Thief<K> = Stealer<Work<K>, Global, Account, Fair<K>>;

/// What a hand needs to steal from another's deque.
pub type DequePass<K> = Pass<Work<K>, Account>;
