//! Stealing from the deques of others.
ghost use Rattle.std.specs.Prelude.{◌≡◌, ◌⊎◌, ◌+◌, ◌<◌, length, take, drop, MatchOption, IfSome};
ghost use Rattle.cj_case.specs.Problems.{plain_problem};
ghost use Rattle.cj_pool.specs.Passes.{deques, takens, deques_of, taken_at, AreReady, TookOne};
ghost use Rattle.cj_pool.specs.Tree.{InTree};

use crate::rule::{DequePass, Thief};
use crate::run::Run;
use crate::steps::steal;
use cj_case::Cell;
use crossbeam_deque::Steal;

/// Tries once to steal from the deque at a place.
pub fn steal_one<K: Run>(
    thieves: &[Thief<K>],
    passes: &mut Vec<DequePass<K>>,
    at: usize,
) -> Option<Cell>
    requires at { at < length passes.old.items }
    requires deques { deques passes.old.items ≡ deques_of thieves.now }
    requires ready { AreReady passes.old.items }
    ensures deques { deques passes.new.items ≡ deques passes.old.items }
    ensures ready { AreReady passes.new.items }
    ensures taken { MatchOption result (takens passes.new.items ≡ takens passes.old.items) (λ c. takens passes.new.items
        ≡ taken_at (takens passes.old.items) at c) }
    ensures tree { IfSome result (InTree (plain_problem K.problem) K.roots) }
{
    match steal(&thieves[at], &mut passes[at]) {
        Steal::Success(work) => Some(work.into_cell()),
        Steal::Empty => None,
        Steal::Retry => None,
    }
}

/// Tries once to steal from each of these deques in turn.
pub fn steal_round<K: Run>(thieves: &[Thief<K>], passes: &mut Vec<DequePass<K>>) -> Option<Cell>
    requires deques { deques passes.old.items ≡ deques_of thieves.now }
    requires ready { AreReady passes.old.items }
    ensures deques { deques passes.new.items ≡ deques passes.old.items }
    ensures ready { AreReady passes.new.items }
    ensures taken { MatchOption result (takens passes.new.items
        ≡ takens passes.old.items) (TookOne (takens passes.old.items) (takens passes.new.items)) }
    ensures tree { IfSome result (InTree (plain_problem K.problem) K.roots) }
{
    for at in 0..passes.len() {
        if let Some(cell) = steal_one(thieves, passes, at) {
            return Some(cell);
        }
    }
    None
}

/// Tries once to steal from each other deque, from the next number on and round.
pub fn steal_next<K: Run>(
    thieves: &[Thief<K>],
    number: usize,
    below: &mut Vec<DequePass<K>>,
    above: &mut Vec<DequePass<K>>,
) -> Option<Cell>
    requires number { number < length thieves.now }
    requires below { (deques below.old.items ≡ take number (deques_of thieves.now)) × AreReady below.old.items }
    requires above { (deques above.old.items ≡ drop (number + 1) (deques_of thieves.now)) × AreReady above.old.items }
    ensures below { (deques below.new.items ≡ deques below.old.items) × AreReady below.new.items }
    ensures above { (deques above.new.items ≡ deques above.old.items) × AreReady above.new.items }
    ensures taken { MatchOption result ((takens below.new.items ≡ takens below.old.items) × (takens above.new.items ≡ takens above.old.items))
        (λ c. (TookOne (takens above.old.items) (takens above.new.items) c × (takens below.new.items ≡ takens below.old.items))
        ⊎ (TookOne (takens below.old.items) (takens below.new.items) c × (takens above.new.items ≡ takens above.old.items))) }
    ensures tree { IfSome result (InTree (plain_problem K.problem) K.roots) }
{
    if let Some(cell) = steal_round(&thieves[number + 1..], above) {
        return Some(cell);
    }
    steal_round(&thieves[..number], below)
}
