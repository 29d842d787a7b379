//! Where primaries are named, the pairs of two secondaries are no candidates, and all others are what they were.
use crate::cases::three;
use cj_candidates::{find_candidates, measure_all};
use cj_case::{Primaries, Problem};
use cj_io::OpenGate;
use cj_slabs::{LeafLimits, sift};
use std::alloc::Global;
use std::panic::Expect;
use std::process::Abort;
use std::thread::Threads;

/// How many leaves may be found in these tests, and told.
const LIMITS: LeafLimits = LeafLimits {
    leaves: 100,
    told: 100,
};

/// Three points of which those are primaries that are marked.
fn marked_so(rt: &impl Abort, alloc: Global, marks: [bool; 3]) -> Problem {
    let [a, b, c] = marks;
    let marks = vec![in alloc; a, b, c].expect(rt, "no fault");
    three(rt, alloc, Primaries::marked(marks))
}

/// How many pairs are kept, how many candidates and roots there are, and how many leaves are near: by lists and slab by slab.
fn counts<R: Threads + Abort + Sync>(
    rt: &R,
    alloc: Global,
    problem: &Problem,
    workers: u32,
) -> (u64, u64, usize, u64, u64) {
    let found = find_candidates(rt, alloc, &OpenGate, problem, workers, 100).expect(rt, "no fault");
    let measured = measure_all(rt, alloc, &OpenGate, problem, workers).expect(rt, "no fault");
    let sifted = sift(rt, alloc, &OpenGate, problem, &measured, workers, LIMITS).expect(
        rt, "no fault",
    );
    (
        found.kept,
        found.touching,
        found.roots.len(),
        sifted.touching,
        sifted.counts.near,
    )
}

/// Each pair is near in each of the five slots.
#[test]
fn pairs_without_a_primary_are_no_candidates(rt: HostRuntime) {
    let alloc = rt.alloc();
    for workers in [1, 3] {
        for (marks, pairs) in [
            ([false, false, false], 0),
            ([true, false, false], 2),
            ([false, true, false], 2),
            ([false, true, true], 3),
            ([true, true, true], 3),
        ] {
            let problem = marked_so(&rt, alloc, marks);
            assert_eq!(rt;
                counts(&rt, alloc, &problem, workers),
                (pairs, 5 * pairs, 5 * pairs as usize, 5 * pairs, 5 * pairs)
            );
        }
        let problem = three(&rt, alloc, Primaries::all());
        assert_eq!(rt; counts(&rt, alloc, &problem, workers), (3, 15, 15, 15, 15));
    }
}

/// Of the second object: the pairs of the first and third are left out.
#[test]
fn each_candidate_is_of_the_primary(rt: HostRuntime) {
    let alloc = rt.alloc();
    let problem = marked_so(&rt, alloc, [false, true, false]);
    let found = find_candidates(&rt, alloc, &OpenGate, &problem, 2, 100).expect(&rt, "no fault");
    assert_eq!(rt; found.roots.len(), 10);
    assert!(rt;
        found
            .roots
            .iter()
            .all(|root| root.pair.a == 1 || root.pair.b == 1)
    );
}
