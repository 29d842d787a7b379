//! Which leaves a certificate in brief tells, and in which order, of objects at rest over a minute and one tick; and its text, as a run
//! hands it out.
ghost use Rattle.std.specs.Prelude.{◌≡◌, ◌<◌, ◌*◌, length};
ghost use Rattle.cj_case.specs.Primaries.{marks_of};
ghost use Rattle.cj_samples.specs.Moments.{IsPlace, tick_of};
ghost use Rattle.cj_track.specs.declared.frame.Frame.TheVariants.{Eme2000};
ghost use Rattle.cj_track.specs.Segments.{node_count};

use cj_brief::told_of_list;
use cj_candidates::{measure_all, roots_in_turn};
use cj_case::{Kind, Leaf, Primaries, Problem, Sizes, Tracks};
use cj_cells::leaves_of;
use cj_cert_text::CertificateText;
use cj_io::{OpenGate, all_parts, join_parts};
use cj_samples::{
    crossing, problem_of, rest, resting as at_threshold, seconds, tick, track_of, track_of_two,
};
use cj_track::{Segment, Track, Vec3};
use std::alloc::Global;
use std::panic::Expect;
use std::process::Abort;
use std::thread::Threads;

fn place(out: u8, beside: u8) -> Vec3
    ensures { IsPlace result }
{
    Vec3 {
        x: (7_000 + i64::from(out)) * 1_000_000_000_000,
        y: i64::from(beside) * 1_000_000_000_000,
        z: 0,
    }
}

/// An object at rest from one second to another, so many kilometres further out than 7,000 km, and so many beside.
fn at_rest(rt: &impl Abort, alloc: Global, from: u8, to: u8, out: u8, beside: u8) -> Segment
    requires { from < to }
    ensures first { result.first.micros ≡ tick_of (from * 1000000) }
    ensures last { result.last.micros ≡ tick_of (to * 1000000) }
    ensures nodes { length result.nodes ≡ 2 }
{
    rest(alloc, from, to, place(out, beside)).expect(rt, "no fault")
}

/// An object at rest throughout.
fn resting(rt: &impl Abort, alloc: Global, out: u8, beside: u8) -> Track
    ensures frame { result.frame ≡ Eme2000 }
    ensures nodes { node_count result.segments ≡ 2 }
{
    let segment = at_rest(rt, alloc, 0, 60, out, beside);
    track_of(alloc, segment).expect(rt, "no fault")
}

/// An object that is 4 km further out and 4 km beside for half a minute, and then 1 km further out.
fn coming_near(rt: &impl Abort, alloc: Global) -> Track
    ensures frame { result.frame ≡ Eme2000 }
    ensures nodes { node_count result.segments ≡ 4 }
{
    let away = at_rest(rt, alloc, 0, 30, 4, 4);
    let beside = at_rest(rt, alloc, 30, 60, 1, 0);
    track_of_two(alloc, away, beside).expect(rt, "no fault")
}

/// Three objects, of which the first and the third are far from each other, and touch.
fn three(rt: &impl Abort, alloc: Global) -> Problem {
    three_by(rt, alloc, Primaries::all())
}

/// The same, of which some are primaries.
fn three_by(rt: &impl Abort, alloc: Global, primaries: Primaries) -> Problem
    requires { marks_of primaries 3 ≡ 3 }
{
    let tracks = vec![in alloc;
        resting(rt, alloc, 0, 0),
        resting(rt, alloc, 1, 1),
        resting(rt, alloc, 4, 4),
    ];
    Problem {
        tracks: Tracks::new(tracks.expect(rt, "no fault")),
        window: seconds(0, 60),
        threshold: 5_000_000_000_000,
        sizes: Sizes::new(vec![in alloc; 0, 0, 0].expect(rt, "no fault")),
        primaries,
    }
}

/// What is told of a problem, and all its leaves.
#[derive(Drop)]
struct Lists {
    told: Vec<Leaf>,
    leaves: Vec<Leaf>,
}

#[tactic(auto, unfolding(cj_cells::specs::Lists::list_of, cj_cert::specs::Written::leaves_in_order))]
fn lists_of(rt: &impl Abort, alloc: Global, problem: &Problem) -> Lists {
    let roots = roots_in_turn(alloc, problem, 10_000).expect(rt, "no fault");
    let leaves = leaves_of(alloc, &OpenGate, problem, &roots, 10_000).expect(rt, "no fault");
    let told = told_of_list(alloc, problem, &roots, &leaves).expect(rt, "no fault");
    Lists { told, leaves }
}

/// A near leaf: its objects, and its first and last tick, counted from the window's first.
type Near = (u32, u32, u32, u32);

/// Whether these are the near leaves that are told of a problem, and no others are.
fn are_told(rt: &impl Abort, alloc: Global, problem: &Problem, near: &[Near]) -> bool {
    let lists = lists_of(rt, alloc, problem);
    lists.told.len() == near.len()
        && lists.told.iter().zip(near.iter()).all(|(leaf, (a, b, first, last))| {
            leaf.kind == Kind::Near
                && leaf.cell.pair.a == *a
                && leaf.cell.pair.b == *b
                && leaf.cell.first == tick(*first)
                && leaf.cell.last == tick(*last)
        })
}

#[test]
fn a_pair_that_is_far_throughout_is_not_told(rt: HostRuntime) {
    let alloc = rt.alloc();
    let a = resting(&rt, alloc, 0, 0);
    let b = resting(&rt, alloc, 4, 4);
    let problem = problem_of(alloc, a, b).expect(&rt, "no fault");
    let lists = lists_of(&rt, alloc, &problem);
    assert_eq!(rt; lists.leaves.len(), 2);
    assert_eq!(rt; lists.told.len(), 0);
}

#[test]
fn pairs_are_told_slot_by_slot(rt: HostRuntime) {
    let alloc = rt.alloc();
    let problem = three(&rt, alloc);
    let near = [
        (0, 1, 0, 59_999_999),
        (1, 2, 0, 59_999_999),
        (0, 1, 60_000_000, 60_000_000),
        (1, 2, 60_000_000, 60_000_000),
    ];
    assert!(rt; are_told(&rt, alloc, &problem, &near));
    assert_eq!(rt; lists_of(&rt, alloc, &problem).leaves.len(), 6);
}

#[test]
fn a_pair_of_two_secondaries_is_not_told(rt: HostRuntime) {
    let alloc = rt.alloc();
    let third = vec![in alloc; false, false, true].expect(&rt, "no fault");
    let problem = three_by(&rt, alloc, Primaries::marked(third));
    let near = [(1, 2, 0, 59_999_999), (1, 2, 60_000_000, 60_000_000)];
    assert!(rt; are_told(&rt, alloc, &problem, &near));
    assert_eq!(rt; lists_of(&rt, alloc, &problem).leaves.len(), 4);
}

#[test]
fn no_pair_is_looked_at_without_a_primary(rt: HostRuntime) {
    let alloc = rt.alloc();
    let none = vec![in alloc; false, false, false].expect(&rt, "no fault");
    let problem = three_by(&rt, alloc, Primaries::marked(none));
    assert_eq!(rt; lists_of(&rt, alloc, &problem).leaves.len(), 0);
}

#[test]
fn of_two_roots_in_a_slot_one_is_told(rt: HostRuntime) {
    let alloc = rt.alloc();
    let a = resting(&rt, alloc, 0, 0);
    let b = coming_near(&rt, alloc);
    let problem = problem_of(alloc, a, b).expect(&rt, "no fault");
    let near = [
        (0, 1, 30_000_000, 59_999_999),
        (0, 1, 60_000_000, 60_000_000),
    ];
    assert!(rt; are_told(&rt, alloc, &problem, &near));
    assert_eq!(rt; lists_of(&rt, alloc, &problem).leaves.len(), 3);
}

#[test]
fn a_root_with_a_near_leaf_is_told_whole(rt: HostRuntime) {
    let alloc = rt.alloc();
    let problem = crossing(alloc).expect(&rt, "no fault");
    let lists = lists_of(&rt, alloc, &problem);
    assert!(rt; lists.told.iter().any(|leaf| leaf.kind == Kind::Far));
    assert!(rt; lists.told.iter().any(|leaf| leaf.kind == Kind::Near));
    assert!(rt; lists.told == lists.leaves);
}

/// The text of the certificate in brief of a problem, as a run hands it out, by so many workers.
#[tactic(auto, unfolding(cj_cells::specs::Lists::list_of, cj_cert::specs::Written::leaves_in_order))]
fn text_of<R: Threads + Abort + Sync>(
    rt: &R,
    alloc: Global,
    problem: &Problem,
    workers: u32,
) -> Vec<u8> {
    let measured = measure_all(rt, alloc, &OpenGate, problem, 1).expect(rt, "no fault");
    let roots = roots_in_turn(alloc, problem, 10_000).expect(rt, "no fault");
    let leaves = leaves_of(alloc, &OpenGate, problem, &roots, 10_000).expect(rt, "no fault");
    let told = told_of_list(alloc, problem, &roots, &leaves).expect(rt, "no fault");
    let shells = &measured.shells;
    let mut text = CertificateText::in_brief(alloc, problem, shells, &told, workers).expect(
        rt, "no fault",
    );
    let parts = all_parts(rt, alloc, &mut text).expect(rt, "no fault");
    join_parts(alloc, &parts).expect(rt, "no fault")
}

#[test]
fn a_run_hands_out_its_certificate_in_brief(rt: HostRuntime) {
    let alloc = rt.alloc();
    let problem = at_threshold(alloc).expect(&rt, "no fault");
    let one = text_of(&rt, alloc, &problem, 1);
    assert_eq!(rt; one.as_slice(), crate::brief::AT_REST);
    let three = text_of(&rt, alloc, &problem, 3);
    assert_eq!(rt; three.as_slice(), crate::brief::AT_REST);
}

/// The certificate in brief of the three, of which the third is a primary.
const OF_THE_THIRD: &[u8] = b"CONJ-CERT 3
WINDOW 1735689600000000 1735689660000000
THRESHOLD 5000000000000
OBJECTS 3
SIZE 1 0
SIZE 2 0
SIZE 3 0
PRIMARY 3
SHELL 1 7000000000000000 7000000000000000
SHELL 2 7001000071418368 7001000071418369
SHELL 3 7004001142204361 7004001142204362
CELL 2 3 1735689600000000 1735689659999999 N
CELL 2 3 1735689660000000 1735689660000000 N
END
";

#[test]
fn a_certificate_in_brief_tells_its_primaries(rt: HostRuntime) {
    let alloc = rt.alloc();
    let third = vec![in alloc; false, false, true].expect(&rt, "no fault");
    let problem = three_by(&rt, alloc, Primaries::marked(third));
    let text = text_of(&rt, alloc, &problem, 2);
    assert_eq!(rt; text.as_slice(), OF_THE_THIRD);
}
