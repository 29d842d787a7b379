//! Closest approaches of two tracks.
ghost use Rattle.std.specs.Prelude.{◌≡◌, ◌<◌, ◌≤◌, List, length, All, IfOk, IfSome};
ghost use Rattle.cj_case.specs.Problems.{plain_problem};
ghost use Rattle.cj_hermite.specs.Roots.{KeepPieces};
ghost use Rattle.cj_case.specs.Leaves.{PlainLeaf};
ghost use Rattle.cj_meet.specs.Encounters.{Describes};

use cj_case::{Cell, Closest, Encounter, Kind, Leaf, Pair, Problem};
use cj_hermite::{PairHint, next_common};
use cj_io::OpenGate;
use cj_meet::{closest, closest_approaches, encounters};
use cj_samples::{
    AT_7000, AT_7005, AT_7100, crossing, moving, problem_of, rest, resting, tick, track_of,
    track_of_two,
};
use cj_track::Vec3;
use std::alloc::{AllocError, Global};
use std::panic::Expect;
use std::process::Abort;
use std::thread::Threads;

const AB: Pair = Pair { a: 0, b: 1 };

/// A second in microseconds.
const SECOND: u32 = 1_000_000;

/// Two tracks side by side at the threshold, at one nanometre in a second.
fn side_by_side(alloc: Global) -> Result<Problem, AllocError>
    ensures { IfOk result (λ problem. length problem.tracks ≡ 2) }
{
    let rate = Vec3 { x: 0, y: 1, z: 0 };
    let a1 = Vec3 {
        x: 7_000_000_000_000_000,
        y: 60,
        z: 0,
    };
    let b1 = Vec3 {
        x: 7_005_000_000_000_000,
        y: 60,
        z: 0,
    };
    let a = moving(alloc, 0, 60, AT_7000, a1, rate)?;
    let b = moving(alloc, 0, 60, AT_7005, b1, rate)?;
    problem_of(alloc, track_of(alloc, a)?, track_of(alloc, b)?)
}

/// The first run of ticks from one microsecond to another at which both tracks are at one piece, as a leaf.
fn leaf(problem: &Problem, from: u32, last: u32, kind: Kind) -> Option<Leaf>
    requires { length problem.now.tracks ≡ 2 }
    ensures keeps { IfSome result (λ leaf. KeepPieces (plain_problem problem.now) 0 1 leaf.cell.first.micros leaf.cell.last.micros) }
    ensures first_object { IfSome result (λ leaf. leaf.cell.pair.a ≡ 0) }
    ensures second_object { IfSome result (λ leaf. leaf.cell.pair.b ≡ 1) }
{
    let tracks = problem.tracks.as_slice();
    let mut hint = PairHint::default();
    let run = next_common(&tracks[0], &tracks[1], tick(from), tick(last), &mut hint)?;
    Some(Leaf {
        cell: Cell {
            pair: AB,
            root: 0,
            first: run.first,
            last: run.last,
        },
        kind,
    })
}

/// The closest approach of the encounter that two leaves are, from one microsecond to before another, and from there to a last
/// one: the microsecond, and the bound in nm.
fn approach(
    alloc: Global,
    problem: &Problem,
    from: u32,
    next: u32,
    last: u32,
) -> Result<Option<(u64, u64)>, AllocError>
    requires two { length problem.now.tracks ≡ 2 }
    requires early { from < next }
    requires late { next ≤ last }
{
    let Some(one) = leaf(problem, from, next - 1, Kind::Undecided) else {
        return Ok(None);
    };
    let Some(other) = leaf(problem, next, last, Kind::Near) else {
        return Ok(None);
    };
    if other.cell.first.micros <= one.cell.last.micros {
        return Ok(None);
    }
    let leaves = [one, other];
    let found = encounters(alloc, &leaves)?;
    let Some(encounter) = found.first() else {
        return Ok(None);
    };
    let at = closest(problem, &leaves, encounter);
    Ok(Some((at.tick.micros.saturating_sub(tick(0).micros), at.high)))
}

#[test]
fn two_tracks_cross_at_one_kilometre(rt: HostRuntime) {
    let problem = crossing(rt.alloc()).expect(&rt, "no fault");
    let found = approach(rt.alloc(), &problem, 29_538_120, 30 * SECOND, 30_461_880).expect(
        &rt, "no fault",
    );
    assert_eq!(rt; found, Some((30_000_000, 1_000_000_000_000)));
}

/// The minute has sixty million flat cells of one tick each: to look at all of them takes minutes.
#[test]
fn a_minute_of_crossing_tracks_ends_at_once(rt: HostRuntime) {
    let problem = crossing(rt.alloc()).expect(&rt, "no fault");
    let found = approach(rt.alloc(), &problem, 0, 30 * SECOND, 60 * SECOND).expect(&rt, "no fault");
    assert_eq!(rt; found, Some((30_000_000, 1_000_000_000_000)));
}

/// Each tick is a flat cell, so the search ends at once where the tracks cross.
#[test]
fn leaves_of_one_tick_are_flat(rt: HostRuntime) {
    let problem = crossing(rt.alloc()).expect(&rt, "no fault");
    let found = approach(rt.alloc(), &problem, 29_999_999, 30 * SECOND, 30 * SECOND).expect(
        &rt, "no fault",
    );
    assert_eq!(rt; found, Some((30_000_000, 1_000_000_000_000)));
}

#[test]
fn exactly_at_the_threshold_the_first_tick_is_taken(rt: HostRuntime) {
    let alloc = rt.alloc();
    let problem = resting(alloc).expect(&rt, "no fault");
    let found = approach(alloc, &problem, 0, 60 * SECOND, 60 * SECOND).expect(&rt, "no fault");
    assert_eq!(rt; found, Some((0, 5_000_000_000_000)));
}

#[test]
fn at_one_place_the_bound_is_0(rt: HostRuntime) {
    let alloc = rt.alloc();
    let a = track_of(alloc, rest(alloc, 0, 60, AT_7000).expect(&rt, "no fault")).expect(
        &rt, "no fault",
    );
    let b = track_of(alloc, rest(alloc, 0, 60, AT_7000).expect(&rt, "no fault")).expect(
        &rt, "no fault",
    );
    let problem = problem_of(alloc, a, b).expect(&rt, "no fault");
    let found = approach(alloc, &problem, 0, 60 * SECOND, 60 * SECOND).expect(&rt, "no fault");
    assert_eq!(rt; found, Some((0, 0)));
}

#[test]
fn between_nodes_the_bound_is_rounded_up(rt: HostRuntime) {
    let problem = side_by_side(rt.alloc()).expect(&rt, "no fault");
    let whole = approach(rt.alloc(), &problem, 0, 60 * SECOND, 60 * SECOND).expect(&rt, "no fault");
    assert_eq!(rt; whole, Some((0, 5_000_000_000_000)));
    let within = approach(rt.alloc(), &problem, 1, 20_500_000, 59_900_000).expect(&rt, "no fault");
    assert_eq!(rt; within, Some((1, 5_000_000_000_001)));
}

#[test]
fn a_shared_tick_is_not_of_the_earlier_encounter(rt: HostRuntime) {
    let alloc = rt.alloc();
    let near = rest(alloc, 0, 30, AT_7000).expect(&rt, "no fault");
    let far = rest(alloc, 30, 60, AT_7100).expect(&rt, "no fault");
    let a = track_of_two(alloc, near, far).expect(&rt, "no fault");
    let b = track_of(alloc, rest(alloc, 0, 60, AT_7005).expect(&rt, "no fault")).expect(
        &rt, "no fault",
    );
    let problem = problem_of(alloc, a, b).expect(&rt, "no fault");
    let found = approach(alloc, &problem, 0, 20 * SECOND, 30 * SECOND).expect(&rt, "no fault");
    assert_eq!(rt; found, Some((0, 5_000_000_000_000)));
}

#[test]
fn each_encounter_of_separate_segments_has_its_own(rt: HostRuntime) {
    let alloc = rt.alloc();
    let early = rest(alloc, 0, 20, AT_7000).expect(&rt, "no fault");
    let late = rest(alloc, 40, 60, AT_7000).expect(&rt, "no fault");
    let a = track_of_two(alloc, early, late).expect(&rt, "no fault");
    let b = track_of(alloc, rest(alloc, 0, 60, AT_7005).expect(&rt, "no fault")).expect(
        &rt, "no fault",
    );
    let problem = problem_of(alloc, a, b).expect(&rt, "no fault");
    let first = approach(alloc, &problem, 0, 10 * SECOND, 20 * SECOND).expect(&rt, "no fault");
    assert_eq!(rt; first, Some((0, 5_000_000_000_000)));
    let second = approach(alloc, &problem, 30 * SECOND, 50 * SECOND, 60 * SECOND).expect(
        &rt, "no fault",
    );
    assert_eq!(rt; second, Some((40_000_000, 5_000_000_000_000)));
}

/// Each encounter so many times.
fn again(alloc: Global, some: &[Encounter], times: usize) -> Result<Vec<Encounter>, AllocError>
    ensures { IfOk result (λ many. (leaves : List PlainLeaf) → All (Describes leaves) some.now → All (Describes leaves) many.items) }
{
    let mut many = Vec::new(alloc);
    for encounter in some {
        many.resize(many.len().saturating_add(times), *encounter)?;
    }
    Ok(many)
}

/// What so many workers find of two encounters, each so many times: one of the first twenty seconds, and one of the last twenty.
fn approaches<R: Threads + Sync>(
    rt: &R,
    alloc: Global,
    problem: &Problem,
    times: usize,
    workers: u32,
) -> Result<Vec<Closest>, AllocError>
    requires { length problem.now.tracks ≡ 2 }
{
    let Some(early) = leaf(problem, 0, 20 * SECOND, Kind::Near) else {
        return Ok(Vec::new(alloc));
    };
    let Some(late) = leaf(problem, 40 * SECOND, 60 * SECOND, Kind::Near) else {
        return Ok(Vec::new(alloc));
    };
    if late.cell.first.micros <= early.cell.last.micros {
        return Ok(Vec::new(alloc));
    }
    let leaves = [early, late];
    let found = encounters(alloc, &leaves)?;
    let many = again(alloc, &found, times)?;
    closest_approaches(rt, alloc, &OpenGate, problem, &leaves, &many, workers)
}

#[test]
fn approaches_come_in_order_from_one_worker_and_from_many(rt: HostRuntime) {
    let alloc = rt.alloc();
    let apart = rest(alloc, 0, 20, AT_7000).expect(&rt, "no fault");
    let together = rest(alloc, 40, 60, AT_7005).expect(&rt, "no fault");
    let a = track_of_two(alloc, apart, together).expect(&rt, "no fault");
    let b = track_of(alloc, rest(alloc, 0, 60, AT_7005).expect(&rt, "no fault")).expect(
        &rt, "no fault",
    );
    let problem = problem_of(alloc, a, b).expect(&rt, "no fault");
    let early = Closest {
        tick: tick(0),
        high: 5_000_000_000_000,
    };
    let late = Closest {
        tick: tick(40 * SECOND),
        high: 0,
    };
    for times in [1usize, 100] {
        for workers in [1, 2, 16] {
            let found = approaches(&rt, alloc, &problem, times, workers).expect(&rt, "no fault");
            assert_eq!(rt; found.len(), times.saturating_mul(2));
            for (place, closest) in found.iter().enumerate() {
                let expected = if place < times { early } else { late };
                assert_eq!(rt; *closest, expected);
            }
        }
    }
}
