//! What is told, counted and marked.
ghost use Rattle.std.specs.Prelude.{◌≤◌};
ghost use Rattle.cj_base.specs.Bounds.{MOST_LEAVES};

use crate::cases::{FIVE_SLOTS, crossing, none, resting, several, two};
use cj_candidates::{measure_all, roots_in_turn};
use cj_case::{Kind, Leaf, Problem};
use cj_cells::leaves_of;
use cj_io::OpenGate;
use cj_samples::tick;
use cj_slabs::{LeafLimits, SiftError, Sifted, marked, sift};
use std::alloc::Global;
use std::panic::Expect;
use std::process::Abort;
use std::thread::Threads;

/// What is found of a problem by so many workers, within limits.
fn found_within<R: Threads + Sync>(
    rt: &R,
    alloc: Global,
    problem: &Problem,
    workers: u32,
    limits: LeafLimits,
) -> Result<Sifted, SiftError>
    requires { limits.leaves ≤ MOST_LEAVES }
{
    let measured = measure_all(rt, alloc, &OpenGate, problem, 1)?;
    sift(rt, alloc, &OpenGate, problem, &measured, workers, limits)
}

/// What is found with at most so many leaves, each of which may be told.
fn found<R: Threads + Sync>(
    rt: &R,
    alloc: Global,
    problem: &Problem,
    workers: u32,
    leaves: u64,
) -> Result<Sifted, SiftError>
    requires { leaves ≤ MOST_LEAVES }
{
    let limits = LeafLimits {
        leaves,
        told: leaves,
    };
    found_within(rt, alloc, problem, workers, limits)
}

/// The near and undecided leaves of the one-thread list.
fn marks_listed<R: Threads + Abort + Sync>(rt: &R, alloc: Global, problem: &Problem) -> Vec<Leaf> {
    let roots = roots_in_turn(alloc, problem, 10_000).expect(rt, "no fault");
    let leaves = leaves_of(alloc, &OpenGate, problem, &roots, 10_000).expect(rt, "no fault");
    let mut marks = Vec::new(alloc);
    for leaf in leaves {
        if leaf.kind != Kind::Far {
            marks.push(leaf).expect(rt, "no fault");
        }
    }
    marks
}

/// Whether two lists have the same leaves, whatever the numbers of their roots.
fn are_alike(one: &[Leaf], other: &[Leaf]) -> bool {
    one.len() == other.len()
        && one.iter().zip(other.iter()).all(|(s, t)| {
            s.cell.pair == t.cell.pair
                && s.cell.first == t.cell.first
                && s.cell.last == t.cell.last
                && s.kind == t.kind
        })
}

/// Whether the same is found slab by slab.
fn are_same(one: &Sifted, other: &Sifted) -> bool {
    one.counts == other.counts
        && one.touching == other.touching
        && one.slabs.len() == other.slabs.len()
        && one
            .slabs
            .iter()
            .zip(other.slabs.iter())
            .all(|(s, t)| are_alike(s, t))
}

/// Whether the leaves that are marked of what so many workers have found are those of the one-thread list.
fn marks_the_same<R: Threads + Abort + Sync>(
    rt: &R,
    alloc: Global,
    problem: &Problem,
    workers: u32,
) -> bool {
    let sifted = found(rt, alloc, problem, workers, 10_000).expect(rt, "no fault");
    let leaves = marked(rt, alloc, &sifted, workers).expect(rt, "no fault");
    are_alike(&leaves, &marks_listed(rt, alloc, problem))
}

#[test]
fn tracks_that_cross_are_told_in_their_minute_alone(rt: HostRuntime) {
    let alloc = rt.alloc();
    let problem = crossing(&rt, alloc, 60);
    let sifted = found(&rt, alloc, &problem, 1, 49).expect(&rt, "no fault");
    assert_eq!(rt; sifted.slabs.len(), 1);
    assert_eq!(rt; sifted.slabs[0].len(), 49);
    assert_eq!(rt; sifted.touching, 1);
    assert_eq!(rt; sifted.counts.roots, 1);
    assert_eq!(rt; sifted.counts.leaves, 49);
    assert_eq!(rt; sifted.counts.far, 22);
    assert_eq!(rt; sifted.counts.near, 27);
    assert_eq!(rt; sifted.counts.undecided, 0);
    let leaves = marked(&rt, alloc, &sifted, 1).expect(&rt, "no fault");
    assert_eq!(rt; leaves.len(), 27);
    assert_eq!(rt;
        leaves.first().map(|leaf| leaf.cell.first),
        Some(tick(29_538_120))
    );
    assert_eq!(rt;
        leaves.last().map(|leaf| leaf.cell.last),
        Some(tick(30_461_880))
    );
}

#[test]
fn more_leaves_than_may_be_are_too_many(rt: HostRuntime) {
    let alloc = rt.alloc();
    let problem = crossing(&rt, alloc, 60);
    assert_eq!(rt;
        found(&rt, alloc, &problem, 1, 48).err(),
        Some(SiftError::TooMany)
    );
    assert_eq!(rt;
        found(&rt, alloc, &problem, 3, 48).err(),
        Some(SiftError::TooMany)
    );
    assert_eq!(rt;
        found(&rt, alloc, &problem, 1, 0).err(),
        Some(SiftError::TooMany)
    );
    let problem = several(&rt, alloc);
    assert_eq!(rt;
        found(&rt, alloc, &problem, 2, 20).err(),
        Some(SiftError::TooMany)
    );
}

/// The 49 leaves of one root, and five leaves of five roots in two slabs.
#[test]
fn more_leaves_than_may_be_told_are_too_many_where_all_are_not(rt: HostRuntime) {
    let alloc = rt.alloc();
    let a = resting(&rt, alloc, 0, 0);
    let b = resting(&rt, alloc, 1, 0);
    let crossing = crossing(&rt, alloc, 60);
    let near = two(&rt, alloc, a, b, FIVE_SLOTS);
    for workers in [1, 2, 3] {
        for (problem, leaves, told, expected) in [
            (&crossing, 49, 49, None),
            (&crossing, 49, 48, Some(SiftError::TooManyTold)),
            (&crossing, 48, 48, Some(SiftError::TooMany)),
            (&crossing, 48, 0, Some(SiftError::TooMany)),
            (&near, 5, 5, None),
            (&near, 5, 4, Some(SiftError::TooManyTold)),
            (&near, 100, 0, Some(SiftError::TooManyTold)),
            (&near, 4, 0, Some(SiftError::TooMany)),
        ] {
            let limits = LeafLimits { leaves, told };
            assert_eq!(rt;
                found_within(&rt, alloc, problem, workers, limits).err(),
                expected
            );
        }
    }
}

#[test]
fn a_root_that_is_far_throughout_is_counted_and_not_told(rt: HostRuntime) {
    let alloc = rt.alloc();
    let a = resting(&rt, alloc, 0, 0);
    let b = resting(&rt, alloc, 4, 4);
    let problem = two(&rt, alloc, a, b, 60);
    let limits = LeafLimits { leaves: 2, told: 0 };
    let sifted = found_within(&rt, alloc, &problem, 1, limits).expect(&rt, "no fault");
    assert_eq!(rt; sifted.slabs.len(), 1);
    assert_eq!(rt; sifted.slabs[0].len(), 0);
    assert_eq!(rt; sifted.counts.roots, 2);
    assert_eq!(rt; sifted.counts.leaves, 2);
    assert_eq!(rt; sifted.counts.far, 2);
    assert_eq!(rt;
        marked(&rt, alloc, &sifted, 2).expect(&rt, "no fault").len(),
        0
    );
}

#[test]
fn a_slab_ends_within_an_encounter(rt: HostRuntime) {
    let alloc = rt.alloc();
    let a = resting(&rt, alloc, 0, 0);
    let b = resting(&rt, alloc, 1, 0);
    let problem = two(&rt, alloc, a, b, FIVE_SLOTS);
    let sifted = found(&rt, alloc, &problem, 2, 5).expect(&rt, "no fault");
    assert_eq!(rt; sifted.slabs.len(), 2);
    assert_eq!(rt; sifted.slabs[0].len(), 4);
    assert_eq!(rt; sifted.slabs[1].len(), 1);
    assert_eq!(rt; sifted.counts.near, 5);
    let leaves = marked(&rt, alloc, &sifted, 2).expect(&rt, "no fault");
    assert_eq!(rt; leaves.len(), 5);
    assert_eq!(rt; leaves.first().map(|leaf| leaf.cell.first), Some(tick(0)));
    assert_eq!(rt;
        leaves.last().map(|leaf| leaf.cell.last),
        Some(tick(250_000_000))
    );
    assert!(rt; marks_the_same(&rt, alloc, &problem, 2));
}

#[test]
fn no_objects_have_no_leaves(rt: HostRuntime) {
    let alloc = rt.alloc();
    let problem = none(&rt, alloc, 60);
    let sifted = found(&rt, alloc, &problem, 3, 0).expect(&rt, "no fault");
    assert_eq!(rt; sifted.touching, 0);
    assert_eq!(rt; sifted.counts.leaves, 0);
    assert_eq!(rt;
        marked(&rt, alloc, &sifted, 3).expect(&rt, "no fault").len(),
        0
    );
}

#[test]
fn a_window_of_one_slot_is_one_slab(rt: HostRuntime) {
    let alloc = rt.alloc();
    let problem = crossing(&rt, alloc, 59);
    let sifted = found(&rt, alloc, &problem, 16, 100).expect(&rt, "no fault");
    assert_eq!(rt; sifted.slabs.len(), 1);
    assert_eq!(rt; sifted.counts.roots, 1);
    let leaves = marked(&rt, alloc, &sifted, 16).expect(&rt, "no fault");
    assert_eq!(rt;
        leaves.first().map(|leaf| leaf.cell.first),
        Some(tick(29_538_120))
    );
    assert_eq!(rt;
        leaves.last().map(|leaf| leaf.cell.last),
        Some(tick(30_461_880))
    );
    assert!(rt; marks_the_same(&rt, alloc, &problem, 16));
}

#[test]
fn as_many_workers_as_there_are_find_the_same(rt: HostRuntime) {
    let alloc = rt.alloc();
    let problem = several(&rt, alloc);
    let one = found(&rt, alloc, &problem, 1, 10_000).expect(&rt, "no fault");
    assert_eq!(rt; one.slabs.len(), 2);
    for workers in [2, 3, 16] {
        let more = found(&rt, alloc, &problem, workers, 10_000).expect(&rt, "no fault");
        assert!(rt; are_same(&one, &more));
        assert!(rt; marks_the_same(&rt, alloc, &problem, workers));
    }
    assert!(rt; marks_the_same(&rt, alloc, &problem, 1));
}
