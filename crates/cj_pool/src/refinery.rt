use crate::rule::Thief;
use crate::run::Run;
use cj_case::Problem;
use cj_ledger::Ledger;
use std::marker::{Model, PhantomData};

/// What the hands share: the problem, the deques to steal from, and what they count together. Its type keeps that the problem, the
/// roots and the number of hands are those of the run.
#[derive(Drop)]
pub struct Refinery<'p, K: Run> {
    pub(crate) problem: &'p Problem,
    pub(crate) limit: u64,
    pub(crate) thieves: Vec<Thief<K>>,
    pub(crate) ledger: Ledger,
    pub(crate) of: PhantomData<K>,
}

impl<'p, K: Run> Model for Refinery<'p, K> {
    ghost use Rattle.std.specs.Prelude.{◌≡◌, ◌≤◌, length};
    ghost use Rattle.cj_base.specs.Bounds.{MOST_LEAVES};
    ghost use Rattle.cj_case.specs.Problems.{plain_problem};
    ghost use Rattle.cj_pool.specs.Hands.{RefinerySeen};
    ghost use Rattle.cj_pool.specs.Passes.{deques_of};
    ghost use Rattle.cj_pool.specs.RootLists.{AreRoots};

    ghost Value = { RefinerySeen };

    ghost view = { λ r. record { problem = r.problem.now; roots = K.roots; limit = r.limit; hands = K.workers; deques = deques_of r.thieves.items; ledger = r.ledger } };

    ghost invariant = { λ r. (r.problem.now ≡ K.problem) × AreRoots (plain_problem K.problem) K.roots × (length K.roots ≤ r.limit) × (r.limit ≤ MOST_LEAVES)
        × (1 ≤ K.workers) × (K.workers ≤ 16) × (length r.thieves.items ≡ K.workers) × (r.ledger.opening ≡ record { roots = length K.roots; shares = K.workers }) };
}
