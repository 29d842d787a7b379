//! A refinery and its hands.
ghost use Rattle.std.specs.Prelude.{◌≡◌, ◌<◌, ◌≤◌, length, All, IfOk};
ghost use Rattle.std.specs.List.{range_with_len};
ghost use Rattle.cj_base.specs.Bounds.{MOST_LEAVES};
ghost use Rattle.cj_case.specs.Problems.{plain_problem};
ghost use Rattle.cj_pool.specs.Hands.{IsHandOf, IsFresh};
ghost use Rattle.cj_pool.specs.Refined.{numbers_of};
ghost use Rattle.cj_pool.specs.RootLists.{AreRoots};
ghost use Rattle.cj_pool.specs.Stations.{AreDealt, AreStations, IsUnused};
ghost use Rattle.cj_pool.specs.Weights.{weigh};

use crate::dealing::deal;
use crate::growing::{new_stations, thieves_of};
use crate::hand::Hand;
use crate::refinery::Refinery;
use crate::run::Run;
use crate::seating::seat;
use crate::station::Station;
use cj_case::{Cell, Problem};
use cj_ledger::Ledger;
use std::alloc::{AllocError, Global};
use std::marker::PhantomData;
use std::thread::Threads;

/// Room in each deque at first. It grows while its thread pushes the roots, so that no thread makes the memory of all.
const ROOM: usize = 64;

/// For each root a hand has room for so many leaves at first.
const LEAVES_A_ROOT: usize = 3;

/// For so many leaves a hand has room at first.
fn leaves_a_hand(roots: usize, workers: u32) -> usize
    requires { 1 ≤ workers }
{
    (roots / workers as usize).saturating_mul(LEAVES_A_ROOT)
}

/// Stations for so many workers, with all roots on their deques.
fn opened<K: Run + Send + Sync, R: Threads + Sync>(
    rt: &R,
    alloc: Global,
    roots: &[Cell],
    workers: u32,
) -> Result<Vec<Station<K>>, AllocError>
    requires workers { (workers ≡ K.workers) × (0 < workers) }
    requires roots { (roots.now ≡ K.roots) × AreRoots (plain_problem K.problem) roots.now }
    ensures len { IfOk result (λ stations. length stations.items ≡ workers) }
    ensures stations { IfOk result (λ stations. AreStations K.workers stations.items) }
    ensures unused { IfOk result (λ stations. All IsUnused stations.items) }
    ensures dealt { IfOk result (λ stations. AreDealt roots.now stations.items) }
{
    let unopened = new_stations(alloc, workers, ROOM)?;
    deal(rt, alloc, unopened, roots, workers)
}

impl<'p, K: Run + Send + Sync> Refinery<'p, K> {
    /// A refinery of these roots, for so many workers, which is to stop at more leaves than the limit, and its hands. The root at
    /// place `i` is pushed to the deque of the hand with the number `i` modulo `workers`.
    pub fn new<R: Threads + Sync>(
        rt: &R,
        alloc: Global,
        problem: &'p Problem,
        roots: Vec<Cell>,
        workers: u32,
        limit: u64,
    ) -> Result<(Refinery<'p, K>, Vec<Hand<'p, K>>), AllocError>
        requires problem { problem.now ≡ K.problem }
        requires roots { roots.items ≡ K.roots }
        requires workers { workers ≡ K.workers }
        requires are_roots { AreRoots (plain_problem problem.now) roots.items }
        requires some { 1 ≤ workers }
        requires few_workers { workers ≤ 16 }
        requires few_roots { length roots.items ≤ limit }
        requires few_leaves { limit ≤ MOST_LEAVES }

        ensures seen { IfOk result (λ r. (r.0.problem ≡ problem.now) × (r.0.roots ≡ roots.items) × (r.0.limit ≡ limit) × (r.0.hands ≡ workers)) }
        ensures hands { IfOk result (λ r. All (IsHandOf r.0) r.1.items) }
        ensures numbers { IfOk result (λ r. numbers_of r.1.items ≡ range_with_len 0 workers) }
        ensures fresh { IfOk result (λ r. All (IsFresh r.0) r.1.items) }
        ensures shares { IfOk result (λ r. weigh (λ h. h.share.count.roots) r.1.items ≡ length roots.items) }
    {
        let (ledger, shares) = Ledger::start(alloc, roots.len() as u64, workers)?;
        let stations = opened(rt, alloc, &roots, workers)?;
        let refinery = Refinery {
            problem,
            limit,
            thieves: thieves_of(alloc, &stations)?,
            ledger,
            of: PhantomData,
        };
        let room = leaves_a_hand(roots.len(), workers);
        let hands = seat(alloc, problem, stations, shares, room)?;
        Ok((refinery, hands))
    }
}
