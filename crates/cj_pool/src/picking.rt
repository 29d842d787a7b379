//! The cell of a turn.
ghost use Rattle.std.specs.Prelude.{◌≡◌, ◌<◌, [], ◌∷◌, ◌++◌, length, All, MatchOption, IfSome, IfNone};
ghost use Rattle.crossbeam_deque.specs.Handles.{worker_deque, worker_view};
ghost use Rattle.cj_case.specs.Problems.{plain_problem};
ghost use Rattle.cj_pool.specs.Accounts.{Settled};
ghost use Rattle.cj_pool.specs.Narrow.{Narrow};
ghost use Rattle.cj_pool.specs.Passes.{deques, takens, deques_of, around, AreReady, IsSeated};
ghost use Rattle.cj_pool.specs.RootLists.{AreRoots};
ghost use Rattle.cj_pool.specs.Tree.{InTree};
ghost use Rattle.cj_pool.specs.Turns.{CellCame};

use crate::finding::find;
use crate::rule::Thief;
use crate::run::Run;
use crate::station::Station;
use arrayvec::ArrayVec;
use cj_case::Cell;

/// The cell that was kept last, or else one that is found.
pub fn pick<K: Run>(
    kept: &mut ArrayVec<Cell, 32>,
    station: &mut Station<K>,
    thieves: &[Thief<K>],
) -> Option<Cell>
    requires number { station.old.number < length thieves.now }
    requires place { length station.old.below.items ≡ station.old.number }
    requires deques { around (deques station.old.below.items) (worker_deque station.old.own) (deques station.old.above.items)
        ≡ deques_of thieves.now }
    requires below { AreReady station.old.below.items }
    requires above { AreReady station.old.above.items }
    requires seated { IsSeated K.workers station.old.own }
    requires roots { AreRoots (plain_problem K.problem) K.roots }
    requires tree { All (InTree (plain_problem K.problem) K.roots) kept.old.items }
    requires narrow { Narrow 26 kept.old.items }
    ensures number { station.new.number ≡ station.old.number }
    ensures place { length station.new.below.items ≡ station.new.number }
    ensures below { (deques station.new.below.items ≡ deques station.old.below.items) × AreReady station.new.below.items }
    ensures above { (deques station.new.above.items ≡ deques station.old.above.items) × AreReady station.new.above.items }
    ensures seated { IsSeated K.workers station.new.own × (worker_deque station.new.own ≡ worker_deque station.old.own) }
    ensures own { ((worker_view station.new.own).opening ≡ (worker_view station.old.own).opening) × ((worker_view station.new.own).pushed
        ≡ (worker_view station.old.own).pushed) }
    ensures came { MatchOption result
        ((around (takens station.new.below.items) (worker_view station.new.own).taken (takens station.new.above.items)
        ≡ around (takens station.old.below.items) (worker_view station.old.own).taken (takens station.old.above.items))
        × (kept.new.items ≡ kept.old.items) × (kept.old.items ≡ []))
        (λ c. CellCame kept.old.items (around (takens station.old.below.items) (worker_view station.old.own).taken (takens station.old.above.items))
        (around (takens station.new.below.items) (worker_view station.new.own).taken (takens station.new.above.items)) c kept.new.items) }
    ensures none { IfNone result (Settled (worker_view station.new.own) []) }
    ensures cell { IfSome result (InTree (plain_problem K.problem) K.roots) }
    ensures tree { All (InTree (plain_problem K.problem) K.roots) kept.new.items }
    ensures narrow { IfSome result (λ c. Narrow 26 (kept.new.items ++ c ∷ [])) }
{
    match kept.pop() {
        Some(cell) => Some(cell),
        None => find(station, thieves),
    }
}
