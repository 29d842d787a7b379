//! Hands on threads.
ghost use Rattle.std.specs.Prelude.{◌≡◌, ℕ, ◌<◌, IfOk, vec_len, slice_index_or, All};
ghost use Rattle.cj_pool.specs.Hands.{IsHandOf};
ghost use Rattle.cj_pool.specs.Turns.{Ended};

use crate::hand::Hand;
use crate::refinery::Refinery;
use crate::run::Run;
use cj_io::Gate;
use std::alloc::{AllocError, Global};
use std::sync::Wait;
use std::thread;
use std::thread::Threads;

/// Says what becomes of a job.
trait Crew {
    type Job;

    ghost accepts: { Self → Self.Job → Type 0 };

    ghost gives: { Self → Self.Job → Self.Job → Type 0 };

    fn work<R: Wait, G: Gate>(&self, rt: &R, alloc: Global, gate: &G, job: Self::Job) -> Self::Job
        requires { accepts self.now job }
        ensures { gives self.now job result };
}

impl<'p, K: Run> Crew for Refinery<'p, K> {
    type Job = Hand<'p, K>;

    ghost accepts = { λ refinery hand. IsHandOf refinery hand };

    ghost gives = { λ refinery before after. IsHandOf refinery after × (after.number ≡ before.number) × Ended after };

    fn work<R: Wait, G: Gate>(
        &self,
        rt: &R,
        alloc: Global,
        gate: &G,
        job: Hand<'p, K>,
    ) -> Hand<'p, K> {
        job.run(rt, alloc, self, gate)
    }
}

/// Each job on a thread of its own, where there are so many.
fn work_all<C: Crew + Sync, R: Threads + Wait + Sync, G: Gate + Sync>(
    rt: &R,
    alloc: Global,
    crew: &C,
    gate: &G,
    jobs: Vec<C::Job>,
) -> Result<Vec<C::Job>, AllocError>
where
    C::Job: Send + Drop,
    requires { All (C.accepts crew.now) jobs.items }
    ensures len { IfOk result (λ done. vec_len done ≡ vec_len jobs) }
    ensures each { IfOk result (λ done. (i : ℕ) (d e : _) → i < vec_len jobs
        → C.gives crew.now (slice_index_or jobs.items i e) (slice_index_or done.items i d)) }
{
    thread::map_vec(rt, jobs, &|job| crew.work(rt, alloc, gate, job))
}

/// Runs each hand on a thread of its own, where there are so many.
pub fn run_hands<'p, K: Run + Send + Sync, R: Threads + Wait + Sync, G: Gate + Sync>(
    rt: &R,
    alloc: Global,
    refinery: &Refinery<'p, K>,
    gate: &G,
    hands: Vec<Hand<'p, K>>,
) -> Result<Vec<Hand<'p, K>>, AllocError>
    requires { All (IsHandOf refinery.now) hands.items }
    ensures len { IfOk result (λ done. vec_len done ≡ vec_len hands.entry) }
    ensures each { IfOk result (λ done. (i : ℕ) (d e : _) → i < vec_len hands.entry
        → IsHandOf refinery.now (slice_index_or done.items i d) × ((slice_index_or done.items i d).number
        ≡ (slice_index_or hands.entry.items i e).number) × Ended (slice_index_or done.items i d)) }
{
    work_all(rt, alloc, refinery, gate, hands)
}
