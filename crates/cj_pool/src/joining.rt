//! Deques whose passes are in one thread again.
ghost use Rattle.std.specs.Prelude.{◌≡◌, ℕ, ◌+◌, ◌<◌, ◌≤◌, [], ◌∷◌, ◌++◌, OnOk, All, length, take, vec_len};
ghost use Rattle.crossbeam_deque.specs.Handles.{view, worker_deque, worker_flavor, worker_view, IsPassOf};
ghost use Rattle.cj_case.specs.declared.cell.Cell.{Cell};
ghost use Rattle.cj_case.specs.Problems.{plain_problem};
ghost use Rattle.cj_pool.specs.Accounts.{Owns};
ghost use Rattle.cj_pool.specs.Passes.{deques, AreReady, IsReady};
ghost use Rattle.cj_pool.specs.Stations.{AreStations, IsPartUp, without_last, station_taken, weigh_all_taken, weigh_given};
ghost use Rattle.cj_pool.specs.Tree.{InTree};
ghost use Rattle.cj_pool.specs.Weights.{weigh};

use crate::rule::{DequePass, Owner};
use crate::run::Run;
use crate::station::Station;
use crate::steps::{absorb, pop, queue_len};
use cj_case::Cell;
use std::alloc::{AllocError, Global};

/// Appends the cells that are left in a deque. With those that were taken, they are what was opened and pushed.
fn drain<K: Run>(own: &mut Owner<K>, cells: &mut Vec<Cell>) -> Result<(), AllocError>
    requires parts { (0 < (worker_view own.old).parts) × ((worker_view own.old).parts ≡ (worker_view own.old).all) }
    requires flavor { worker_flavor own.old ≡ 0 }
    requires tree { All (InTree (plain_problem K.problem) K.roots) cells.old.items }
    ensures left { OnOk result ((w : Cell → ℕ) → weigh w cells.old.items + weigh w (worker_view own.old).opening
        + weigh w (worker_view own.old).pushed ≡ weigh w (worker_view own.old).taken + weigh w cells.new.items) }
    ensures kept { take (vec_len cells.old) cells.new.items ≡ cells.old.items }
    ensures tree { All (InTree (plain_problem K.problem) K.roots) cells.new.items }
{
    for _ in 0..queue_len(own) {
        let Some(work) = pop(own) else {
            return Ok(());
        };
        cells.push(work.into_cell())?;
    }
    queue_len(own);
    Ok(())
}

/// Takes back a station's pass that the last one has, and the one that the station has to the last deque.
fn trade<K: Run>(earlier: &mut Station<K>, last: &mut Station<K>, pass: DequePass<K>)
    requires owners { Owns (worker_view earlier.old.own) × Owns (worker_view last.old.own) }
    requires to_earlier { IsPassOf (worker_deque earlier.old.own) pass × IsReady pass }
    requires to_last { (deques earlier.old.above.items ≡ without_last (deques earlier.old.above.items) ++ worker_deque last.old.own ∷ [])
        × AreReady earlier.old.above.items }
    ensures numbers { (earlier.new.number ≡ earlier.old.number) × (last.new.number ≡ last.old.number) }
    ensures below { (earlier.new.below ≡ earlier.old.below) × (last.new.below ≡ last.old.below) }
    ensures above { last.new.above ≡ last.old.above }
    ensures parts { IsPartUp earlier.old.own earlier.new.own × IsPartUp last.old.own last.new.own }
    ensures less { (deques earlier.new.above.items ≡ without_last (deques earlier.old.above.items)) × AreReady earlier.new.above.items }
    ensures taken { (w : Cell → ℕ) → weigh (weigh w) (station_taken earlier.new) + weigh w (worker_view last.new.own).taken
        ≡ weigh (weigh w) (station_taken earlier.old) + weigh w (worker_view last.old.own).taken + weigh w (view pass).taken }
{
    absorb(&mut earlier.own, pass);
    if let Some(back) = earlier.above.pop() {
        absorb(&mut last.own, back);
    }
}

/// Takes back all passes between the last station and the others.
fn part_with<K: Run>(stations: &mut [Station<K>], last: &mut Station<K>)
    requires stations { AreStations K.workers (stations.old ++ last.old ∷ []) }
    requires few { length stations.old < K.workers }
    ensures stations { AreStations K.workers stations.new }
    ensures len { length stations.new ≡ length stations.old }
    ensures whole { ((worker_view last.new.own).parts ≡ K.workers) × ((worker_view last.new.own).all ≡ K.workers) × (worker_flavor last.new.own ≡ 0) }
    ensures given { (w : Cell → ℕ) → weigh_given w (stations.new ++ last.new ∷ []) ≡ weigh_given w (stations.old ++ last.old ∷ []) }
    ensures taken { (w : Cell → ℕ) → weigh_all_taken w stations.new + weigh w (worker_view last.new.own).taken
        ≡ weigh_all_taken w (stations.old ++ last.old ∷ []) }
{
    while let Some(pass) = last.below.pop() {
        let earlier = &mut stations[last.below.len()];
        trade(earlier, last, pass);
    }
}

/// Appends the cells that are left in all deques.
pub(crate) fn gather<K: Run>(
    mut stations: Vec<Station<K>>,
    cells: &mut Vec<Cell>,
) -> Result<(), AllocError>
    requires stations { AreStations K.workers stations.items }
    requires few { length stations.items ≤ K.workers }
    requires tree { All (InTree (plain_problem K.problem) K.roots) cells.old.items }
    ensures left { OnOk result ((w : Cell → ℕ) → weigh w cells.old.items + weigh_given w stations.items ≡ weigh_all_taken w stations.items
        + weigh w cells.new.items) }
    ensures kept { OnOk result (take (vec_len cells.old) cells.new.items ≡ cells.old.items) }
    ensures tree { All (InTree (plain_problem K.problem) K.roots) cells.new.items }
{
    while let Some(mut last) = stations.pop() {
        part_with(&mut stations, &mut last);
        drain(&mut last.own, cells)?;
    }
    Ok(())
}
