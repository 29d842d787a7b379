ghost use Rattle.std.specs.Prelude.{◌≡◌, ◌≤◌, length};
ghost use Rattle.cj_case.specs.CaseLimits.{MAX_SIZE};

use cj_case::{Cell, Kind, Leaf, Pair, Problem};
use cj_cells::{Look, RefineError, look, number_roots, order_roots, refine_all, roots_of_slot};
use cj_hermite::Hints;
use cj_io::OpenGate;
use cj_samples::{
    AT_7000, AT_7005, AT_7100, REST, crossing, node, problem_of, rest, sized, tick, track_of,
    track_of_two, useable,
};
use cj_track::Vec3;
use std::alloc::Global;
use std::panic::Expect;
use std::process::Abort;

const BOTH: [Pair; 1] = [Pair { a: 0, b: 1 }];

/// The roots of the two tracks in a slot, as microseconds after the start.
fn runs_in(alloc: Global, problem: &Problem, slot: u32) -> Result<Vec<(u64, u64)>, RefineError>
    requires { length problem.now.tracks ≡ 2 }
{
    let mut hints = Hints::new(alloc, 2)?;
    let mut roots = Vec::new(alloc);
    roots_of_slot(alloc, problem, slot, &BOTH, 10, &mut hints, &mut roots)?;
    let mut runs = Vec::new(alloc);
    for root in &roots {
        runs.push((
            root.first.micros.saturating_sub(tick(0).micros),
            root.last.micros.saturating_sub(tick(0).micros),
        ))?;
    }
    Ok(runs)
}

/// The leaves of the first root of the crossing.
fn first_leaves(alloc: Global, limit: u64) -> Result<Vec<Leaf>, RefineError> {
    let problem = crossing(alloc)?;
    let mut hints = Hints::new(alloc, 2)?;
    let mut roots = Vec::new(alloc);
    roots_of_slot(alloc, &problem, 0, &BOTH, 1, &mut hints, &mut roots)?;
    refine_all(alloc, &OpenGate, &problem, &roots, limit)
}

/// The leaves of the roots in the first two slots, those of the minute and of the tick behind it.
fn all_leaves(alloc: Global, problem: &Problem, limit: u64) -> Result<Vec<Leaf>, RefineError>
    requires { length problem.now.tracks ≡ 2 }
{
    let mut hints = Hints::new(alloc, 2)?;
    let mut roots = Vec::new(alloc);
    roots_of_slot(alloc, problem, 0, &BOTH, 10, &mut hints, &mut roots)?;
    roots_of_slot(alloc, problem, 1, &BOTH, 10, &mut hints, &mut roots)?;
    refine_all(alloc, &OpenGate, problem, &roots, limit)
}

fn count(leaves: &[Leaf], kind: Kind) -> usize {
    leaves.iter().filter(|leaf| leaf.kind == kind).count()
}

#[test]
fn tracks_that_cross_have_49_leaves_in_a_minute(rt: HostRuntime) {
    let leaves = first_leaves(rt.alloc(), 49).expect(&rt, "no fault");
    assert_eq!(rt; leaves.len(), 49);
    assert_eq!(rt; count(&leaves, Kind::Far), 22);
    assert_eq!(rt; count(&leaves, Kind::Near), 27);
    let near = leaves.iter().find(|leaf| leaf.kind == Kind::Near);
    assert_eq!(rt; near.map(|leaf| leaf.cell.first), Some(tick(29_538_120)));
    let near = leaves.iter().rev().find(|leaf| leaf.kind == Kind::Near);
    assert_eq!(rt; near.map(|leaf| leaf.cell.last), Some(tick(30_461_880)));
    assert_eq!(rt; first_leaves(rt.alloc(), 48), Err(RefineError::TooMany));
}

#[test]
fn one_tick_behind_the_minute_has_a_leaf_too(rt: HostRuntime) {
    let problem = crossing(rt.alloc()).expect(&rt, "no fault");
    assert_eq!(rt;
        all_leaves(rt.alloc(), &problem, 50)
            .expect(&rt, "no fault")
            .len(),
        50
    );
    assert_eq!(rt;
        all_leaves(rt.alloc(), &problem, 49),
        Err(RefineError::TooMany)
    );
}

#[test]
fn a_shared_tick_begins_the_later_run(rt: HostRuntime) {
    let alloc = rt.alloc();
    let one = rest(alloc, 0, 30, AT_7000).expect(&rt, "no fault");
    let other = rest(alloc, 30, 60, AT_7100).expect(&rt, "no fault");
    let a = track_of_two(alloc, one, other).expect(&rt, "no fault");
    let b = track_of(alloc, rest(alloc, 0, 60, AT_7005).expect(&rt, "no fault")).expect(
        &rt, "no fault",
    );
    let problem = problem_of(alloc, a, b).expect(&rt, "no fault");
    assert_eq!(rt;
        runs_in(alloc, &problem, 0)
            .expect(&rt, "no fault")
            .as_slice(),
        [(0, 29_999_999), (30_000_000, 59_999_999)].as_slice()
    );
    assert_eq!(rt;
        runs_in(alloc, &problem, 1)
            .expect(&rt, "no fault")
            .as_slice(),
        [(60_000_000, 60_000_000)].as_slice()
    );
    assert_eq!(rt;
        runs_in(alloc, &problem, 2)
            .expect(&rt, "no fault")
            .as_slice(),
        [].as_slice()
    );
}

#[test]
fn a_gap_is_in_no_run(rt: HostRuntime) {
    let alloc = rt.alloc();
    let one = rest(alloc, 0, 20, AT_7000).expect(&rt, "no fault");
    let other = rest(alloc, 40, 60, AT_7000).expect(&rt, "no fault");
    let a = track_of_two(alloc, one, other).expect(&rt, "no fault");
    let b = track_of(alloc, rest(alloc, 0, 60, AT_7005).expect(&rt, "no fault")).expect(
        &rt, "no fault",
    );
    let problem = problem_of(alloc, a, b).expect(&rt, "no fault");
    assert_eq!(rt;
        runs_in(alloc, &problem, 0)
            .expect(&rt, "no fault")
            .as_slice(),
        [(0, 20_000_000), (40_000_000, 59_999_999)].as_slice()
    );
    assert_eq!(rt;
        all_leaves(alloc, &problem, 3).expect(&rt, "no fault").len(),
        3
    );
    assert_eq!(rt; all_leaves(alloc, &problem, 2), Err(RefineError::TooMany));
}

#[test]
fn spans_that_meet_at_one_tick(rt: HostRuntime) {
    let alloc = rt.alloc();
    let early = useable(
        alloc,
        0,
        30,
        node(0, AT_7000, REST),
        node(60, AT_7000, REST),
    )
    .expect(&rt, "no fault");
    let late = useable(
        alloc,
        30,
        60,
        node(0, AT_7005, REST),
        node(60, AT_7005, REST),
    )
    .expect(&rt, "no fault");
    let problem = problem_of(
        alloc,
        track_of(alloc, early).expect(&rt, "no fault"),
        track_of(alloc, late).expect(&rt, "no fault"),
    )
    .expect(&rt, "no fault");
    assert_eq!(rt;
        runs_in(alloc, &problem, 0)
            .expect(&rt, "no fault")
            .as_slice(),
        [(30_000_000, 30_000_000)].as_slice()
    );
    let leaves = all_leaves(alloc, &problem, 1).expect(&rt, "no fault");
    assert_eq!(rt; leaves.len(), 1);
    assert_eq!(rt; count(&leaves, Kind::Near), 1);
}

/// The kind of the only leaf of two objects at rest, 5.003 km apart, of these sizes.
fn kind_at_rest(alloc: Global, size_a: u64, size_b: u64) -> Result<Option<Kind>, RefineError>
    requires small_a { size_a ≤ MAX_SIZE }
    requires small_b { size_b ≤ MAX_SIZE }
{
    let beyond = Vec3 {
        x: 7_005_003_000_000_000,
        y: 0,
        z: 0,
    };
    let a = track_of(alloc, rest(alloc, 0, 59, AT_7000)?)?;
    let b = track_of(alloc, rest(alloc, 0, 59, beyond)?)?;
    let problem = sized(alloc, a, b, size_a, size_b)?;
    let leaves = all_leaves(alloc, &problem, 1)?;
    Ok(leaves.first().map(|leaf| leaf.kind))
}

#[test]
fn the_sizes_of_both_objects_count(rt: HostRuntime) {
    let alloc = rt.alloc();
    let metre = 1_000_000_000;
    assert_eq!(rt;
        kind_at_rest(alloc, 0, 0).expect(&rt, "no fault"),
        Some(Kind::Far)
    );
    assert_eq!(rt;
        kind_at_rest(alloc, 3 * metre, 0).expect(&rt, "no fault"),
        Some(Kind::Near)
    );
    assert_eq!(rt;
        kind_at_rest(alloc, 0, 3 * metre).expect(&rt, "no fault"),
        Some(Kind::Near)
    );
    assert_eq!(rt;
        kind_at_rest(alloc, metre, 2 * metre).expect(&rt, "no fault"),
        Some(Kind::Near)
    );
    assert_eq!(rt;
        kind_at_rest(alloc, metre, metre).expect(&rt, "no fault"),
        Some(Kind::Far)
    );
}

#[test]
fn a_look_halves_at_the_middle(rt: HostRuntime) {
    let alloc = rt.alloc();
    let problem = crossing(alloc).expect(&rt, "no fault");
    let mut hints = Hints::new(alloc, 2).expect(&rt, "no fault");
    let mut roots = Vec::new(alloc);
    roots_of_slot(alloc, &problem, 0, &BOTH, 1, &mut hints, &mut roots).expect(&rt, "no fault");
    assert_eq!(rt; roots.len(), 1);
    let root = roots[0];
    let left = Cell {
        pair: root.pair,
        root: 0,
        first: tick(0),
        last: tick(29_999_999),
    };
    let right = Cell {
        pair: root.pair,
        root: 0,
        first: tick(30_000_000),
        last: tick(59_999_999),
    };
    assert_eq!(rt; look(&problem, root), Look::Halves(left, right));
}

fn one_tick(pair: Pair, root: u32, micros: u32) -> Cell {
    Cell {
        pair,
        root,
        first: tick(micros),
        last: tick(micros),
    }
}

#[test]
fn a_root_is_numbered_by_its_place(rt: HostRuntime) {
    let pair = Pair { a: 0, b: 1 };
    let mut roots = vec![in rt.alloc(); one_tick(pair, 9, 60)].expect(&rt, "no fault");
    number_roots(&mut roots);
    assert_eq!(rt; roots.as_slice(), [one_tick(pair, 0, 60)].as_slice());
}

#[test]
fn roots_come_in_order_of_pair_and_time(rt: HostRuntime) {
    let first = Pair { a: 0, b: 1 };
    let second = Pair { a: 0, b: 2 };
    let third = Pair { a: 1, b: 2 };
    let mut roots = vec![in rt.alloc();
        one_tick(third, 9, 0),
        one_tick(second, 9, 7),
        one_tick(first, 9, 60),
        one_tick(second, 9, 5),
    ]
    .expect(&rt, "no fault");
    order_roots(&mut roots);
    let expected = [
        one_tick(first, 0, 60),
        one_tick(second, 1, 5),
        one_tick(second, 2, 7),
        one_tick(third, 3, 0),
    ];
    assert_eq!(rt; roots.as_slice(), expected.as_slice());
}
