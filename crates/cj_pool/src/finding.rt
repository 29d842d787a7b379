//! A cell from the deques.
ghost use Rattle.std.specs.Prelude.{◌≡◌, ◌<◌, [], length, MatchOption, IfSome, IfNone};
ghost use Rattle.crossbeam_deque.specs.Handles.{worker_deque, worker_view};
ghost use Rattle.cj_case.specs.Problems.{plain_problem};
ghost use Rattle.cj_pool.specs.Accounts.{Settled};
ghost use Rattle.cj_pool.specs.Passes.{deques, takens, deques_of, around, AreReady, IsSeated, TookOne};
ghost use Rattle.cj_pool.specs.Tree.{InTree};

use crate::rule::Thief;
use crate::run::Run;
use crate::station::Station;
use crate::stealing::steal_next;
use crate::steps::pop;
use cj_case::Cell;

/// Pops the station's own deque, and if that is empty tries to steal once from each other.
pub fn find<K: Run>(station: &mut Station<K>, thieves: &[Thief<K>]) -> Option<Cell>
    requires number { station.old.number < length thieves.now }
    requires place { length station.old.below.items ≡ station.old.number }
    requires deques { around (deques station.old.below.items) (worker_deque station.old.own) (deques station.old.above.items)
        ≡ deques_of thieves.now }
    requires below { AreReady station.old.below.items }
    requires above { AreReady station.old.above.items }
    requires seated { IsSeated K.workers station.old.own }
    ensures number { station.new.number ≡ station.old.number }
    ensures place { length station.new.below.items ≡ station.new.number }
    ensures below { (deques station.new.below.items ≡ deques station.old.below.items) × AreReady station.new.below.items }
    ensures above { (deques station.new.above.items ≡ deques station.old.above.items) × AreReady station.new.above.items }
    ensures seated { IsSeated K.workers station.new.own × (worker_deque station.new.own ≡ worker_deque station.old.own) }
    ensures own { ((worker_view station.new.own).opening ≡ (worker_view station.old.own).opening) × ((worker_view station.new.own).pushed
        ≡ (worker_view station.old.own).pushed) }
    ensures taken { MatchOption result
        (around (takens station.new.below.items) (worker_view station.new.own).taken (takens station.new.above.items)
        ≡ around (takens station.old.below.items) (worker_view station.old.own).taken (takens station.old.above.items))
        (TookOne (around (takens station.old.below.items) (worker_view station.old.own).taken (takens station.old.above.items))
        (around (takens station.new.below.items) (worker_view station.new.own).taken (takens station.new.above.items))) }
    ensures none { IfNone result (Settled (worker_view station.new.own) []) }
    ensures tree { IfSome result (InTree (plain_problem K.problem) K.roots) }
{
    if let Some(work) = pop(&mut station.own) {
        return Some(work.into_cell());
    }
    let number = station.number as usize;
    steal_next(thieves, number, &mut station.below, &mut station.above)
}
