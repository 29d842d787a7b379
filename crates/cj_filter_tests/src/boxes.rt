ghost use Rattle.std.specs.Prelude.{◌≡◌, ◌+◌, ◌<◌, ◌≤◌, ◌≤ℤ◌, ◌*◌, ◌^◌, ◌-ℤ◌, pos, length, replicate, IfOk};
ghost use Rattle.cj_base.specs.Bounds.{MOST_OBJECTS};
ghost use Rattle.cj_case.specs.Boxes.{plain_box, plain_boxes};
ghost use Rattle.cj_filter_tests.specs.Rows.{box_in_row, boxes_in_row};

use cj_base::Window;
use cj_case::Pair;
use cj_grid::{AxisBox, Steps, find_touching, slot_box, touches, touching};
use cj_samples::{REST, moving, rest, track_of, track_of_two, window};
use cj_track::{Track, Vec3};
use cj_walk::TrackWalk;
use std::alloc::{AllocError, Global};
use std::marker::Brand;
use std::panic::Expect;
use std::process::Abort;
use std::sync::ledger::{Blank, Ledger};

/// 5 km in nm.
const THRESHOLD: u64 = 5_000_000_000_000;

/// 3 km/s forth along x, and back along y.
const ASLANT: Vec3 = Vec3 {
    x: 3_000_000_000_000,
    y: -3_000_000_000_000,
    z: 0,
};

/// The corners of the box round the high place and the low one.
const LEAST_OF_BOTH: Vec3 = Vec3 {
    x: 6_999_999_999_999_999,
    y: -3,
    z: -5,
};

const MOST_OF_BOTH: Vec3 = Vec3 {
    x: 7_000_000_000_000_000,
    y: 2,
    z: 11,
};

const HIGH: Vec3 = Vec3 {
    x: 7_000_000_000_000_000,
    y: -3,
    z: 11,
};

const LOW: Vec3 = Vec3 {
    x: 6_999_999_999_999_999,
    y: 2,
    z: -5,
};

/// A track that rests at a place for 20 seconds, and after 20 more at another until second 90.
fn stepping(alloc: Global) -> Result<Track, AllocError> {
    let one = rest(alloc, 0, 20, HIGH)?;
    let other = rest(alloc, 40, 90, LOW)?;
    track_of_two(alloc, one, other)
}

/// A track that moves straight on for 90 seconds.
fn straight(alloc: Global) -> Result<Track, AllocError> {
    let from = Vec3 {
        x: 7_000_000_000_000_000,
        y: 300_000_000_000_000,
        z: 17,
    };
    let to = Vec3 {
        x: 7_270_000_000_000_000,
        y: 30_000_000_000_000,
        z: 17,
    };
    track_of(alloc, moving(alloc, 0, 90, from, to, ASLANT)?)
}

fn corners(least: Vec3, most: Vec3) -> AxisBox
    requires x { least.x ≤ℤ most.x }
    requires y { least.y ≤ℤ most.y }
    requires z { least.z ≤ℤ most.z }
{
    AxisBox { least, most }
}

/// The box of a track in a slot, found by a walk of its own.
fn box_in(track: &Track, window: Window, slot: u32) -> Option<AxisBox> {
    let mut walk = TrackWalk::new(track, window)?;
    slot_box(&mut walk, slot)
}

/// The whole of the first slot; the six ticks of the last, which ends with the window; the two of a slot that is counted from a
/// later window.
#[test]
fn a_straight_track_has_its_ends_in_the_slot(rt: HostRuntime) {
    let track = straight(rt.alloc()).expect(&rt, "no fault");
    let place = |x, y| Vec3 { x, y, z: 17 };
    for (ticks, slot, least, most) in [
        (
            window(0, 90_000_000),
            0,
            place(7_000_000_000_000_000, 120_000_003_000_000),
            place(7_179_999_997_000_000, 300_000_000_000_000),
        ),
        (
            window(0, 60_000_005),
            1,
            place(7_180_000_000_000_000, 119_999_985_000_000),
            place(7_180_000_015_000_000, 120_000_000_000_000),
        ),
        (
            window(7_000_000, 67_000_001),
            1,
            place(7_201_000_000_000_000, 98_999_997_000_000),
            place(7_201_000_003_000_000, 99_000_000_000_000),
        ),
    ] {
        let area = box_in(&track, ticks, slot);
        assert_eq!(rt; area.map(|area| area.least), Some(least));
        assert_eq!(rt; area.map(|area| area.most), Some(most));
    }
}

#[test]
fn a_box_goes_round_the_segments_of_its_slot(rt: HostRuntime) {
    let track = stepping(rt.alloc()).expect(&rt, "no fault");
    let high = Some(corners(HIGH, HIGH));
    let low = Some(corners(LOW, LOW));
    for (ticks, slot, expected) in [
        (
            window(0, 90_000_000),
            0,
            Some(corners(LEAST_OF_BOTH, MOST_OF_BOTH)),
        ),
        (window(0, 90_000_000), 1, low),
        (window(0, 90_000_000), 2, None),
        (window(0, 39_999_999), 0, high),
        (window(20_000_000, 39_999_999), 0, high),
        (window(20_000_001, 39_999_999), 0, None),
        (window(20_000_001, 40_000_000), 0, low),
        (window(90_000_000, 0), 0, None),
    ] {
        assert_eq!(rt; box_in(&track, ticks, slot), expected);
    }
}

/// The boxes of a track in two slots of its first 90 seconds, by one walk.
fn boxes_by_one_walk(track: &Track, one: u32, other: u32) -> Option<[Option<AxisBox>; 2]> {
    let mut walk = TrackWalk::new(track, window(0, 90_000_000))?;
    let first = slot_box(&mut walk, one);
    let second = slot_box(&mut walk, other);
    Some([first, second])
}

/// A walk that has come to a later slot gives the box of an earlier one too.
#[test]
fn one_walk_gives_the_boxes_of_all_slots(rt: HostRuntime) {
    let track = stepping(rt.alloc()).expect(&rt, "no fault");
    let both = Some(corners(LEAST_OF_BOTH, MOST_OF_BOTH));
    let low = Some(corners(LOW, LOW));
    for (one, other, expected) in [
        (0, 1, [both, low]),
        (1, 0, [low, both]),
        (0, 0, [both, both]),
        (2, 1, [None, low]),
        (1, 2, [low, None]),
    ] {
        assert_eq!(rt; boxes_by_one_walk(&track, one, other), Some(expected));
    }
}

/// Looks at two boxes in both orders, by a threshold of 5 km. These are two steps.
fn both_ways<L: Ledger>(a: &AxisBox, b: &AxisBox, steps: &mut Steps<L>) -> (bool, bool)
    ensures { steps.new ≡ steps.old + 2 }
{
    let first = touches(a, b, THRESHOLD, steps);
    let second = touches(b, a, THRESHOLD, steps);
    (first, second)
}

fn look<L: Ledger>(blank: Blank, a: &AxisBox, b: &AxisBox) -> (bool, bool)
    requires name { blank.name ≡ L.name }
    requires parts { blank.parts ≡ L.parts }
    requires some { 0 < blank.parts }
{
    let mut steps = Steps::<L>::new(blank);
    both_ways(a, b, &mut steps)
}

/// A box of 10 nm on each side.
const OWN: AxisBox = AxisBox {
    least: REST,
    most: Vec3 {
        x: 10,
        y: 10,
        z: 10,
    },
};

fn point(x: i64, y: i64, z: i64) -> AxisBox {
    let at = Vec3 { x, y, z };
    corners(at, at)
}

/// The corners of the largest box.
const LEAST: Vec3 = Vec3 {
    x: i64::MIN,
    y: i64::MIN,
    z: i64::MIN,
};

const MOST: Vec3 = Vec3 {
    x: i64::MAX,
    y: i64::MAX,
    z: i64::MAX,
};

/// Exactly the threshold apart, one nanometre more, and at the ends of all numbers.
#[test]
fn boxes_touch_up_to_the_threshold(rt: HostRuntime) {
    let beside = 5_000_000_000_010;
    let whole = corners(LEAST, MOST);
    for (a, b, expected) in [
        (OWN, point(beside, 0, 0), true),
        (OWN, point(0, beside, 0), true),
        (OWN, point(0, 0, beside), true),
        (OWN, point(beside, beside, beside), true),
        (OWN, point(beside + 1, 0, 0), false),
        (OWN, point(0, beside + 1, 0), false),
        (OWN, point(0, 0, beside + 1), false),
        (corners(LEAST, LEAST), corners(MOST, MOST), false),
        (corners(MOST, MOST), corners(MOST, MOST), true),
        (whole, corners(LEAST, LEAST), true),
        (whole, corners(MOST, MOST), true),
    ] {
        assert_eq!(rt; look::<Brand>(Blank::new(1), &a, &b), (expected, expected));
        let found = find_touching(rt.alloc(), &[Some(a), Some(b)], &[0, 0], THRESHOLD).expect(
            &rt, "no fault",
        );
        assert_eq!(rt; found.len(), usize::from(expected));
    }
}

#[test]
fn touching_boxes_give_their_pairs_in_order(rt: HostRuntime) {
    let third = point(5_000_000_000_010, 0, 0);
    let fourth = point(10_000_000_000_010, 0, 0);
    let boxes = [Some(OWN), None, Some(third), Some(fourth)];
    let found = find_touching(rt.alloc(), &boxes, &[0; 4], THRESHOLD).expect(&rt, "no fault");
    let expected = [Pair { a: 0, b: 2 }, Pair { a: 2, b: 3 }];
    assert_eq!(rt; found.as_slice(), expected.as_slice());
}

/// The radii of two objects bridge three metres, or a nanometre less than that.
#[test]
fn sizes_let_a_pair_touch_beyond_the_threshold(rt: HostRuntime) {
    let boxes = [
        Some(OWN),
        None,
        Some(point(5_003_000_000_010, 0, 0)),
        Some(OWN),
    ];
    let sizes = [
        1_000_000_000,
        1_000_000_000_000,
        2_000_000_000,
        1_999_999_999,
    ];
    let found = find_touching(rt.alloc(), &boxes, &sizes, THRESHOLD).expect(&rt, "no fault");
    let expected = [
        Pair { a: 0, b: 2 },
        Pair { a: 0, b: 3 },
        Pair { a: 2, b: 3 },
    ];
    assert_eq!(rt; found.as_slice(), expected.as_slice());
}

/// A place on the corner of a bucket or a nanometre below it, seen across the threshold: a bucket holds its least corner and not its
/// greatest.
#[test]
fn objects_on_both_sides_of_a_corner_are_found(rt: HostRuntime) {
    for corner in [-2_000_000_000_000_000, 0, 2_000_000_000_000_000] {
        let boxes = [
            Some(point(corner - 1, 0, 0)),
            Some(point(corner + 5_000_000_000_000, 0, 0)),
            Some(point(corner + 4_999_999_999_999, 0, 0)),
            Some(point(corner, 0, 0)),
        ];
        let found = find_touching(rt.alloc(), &boxes, &[0; 4], THRESHOLD).expect(&rt, "no fault");
        let expected = [
            Pair { a: 0, b: 2 },
            Pair { a: 0, b: 3 },
            Pair { a: 1, b: 2 },
            Pair { a: 1, b: 3 },
            Pair { a: 2, b: 3 },
        ];
        assert_eq!(rt; found.as_slice(), expected.as_slice());
    }
}

/// A box of 10,000 km on each side is wide. It is compared with all others, wide or not.
#[test]
fn wide_boxes_are_found(rt: HostRuntime) {
    let far = 10_000_000_000_000_000;
    let wide = Some(corners(
        REST,
        Vec3 {
            x: far,
            y: far,
            z: far,
        },
    ));
    let boxes = [
        Some(point(far, far, far)),
        wide,
        Some(point(-far, 0, 0)),
        wide,
        Some(OWN),
    ];
    let found = find_touching(rt.alloc(), &boxes, &[0; 5], THRESHOLD).expect(&rt, "no fault");
    let expected = [
        Pair { a: 0, b: 1 },
        Pair { a: 0, b: 3 },
        Pair { a: 1, b: 3 },
        Pair { a: 1, b: 4 },
        Pair { a: 3, b: 4 },
    ];
    assert_eq!(rt; found.as_slice(), expected.as_slice());
}

/// A box of 10,000 km along x at a place along y.
fn stick(y: i64) -> AxisBox {
    let end = 10_000_000_000_000_000;
    corners(Vec3 { x: 0, y, z: 0 }, Vec3 { x: end, y, z: 0 })
}

/// Two long boxes that lie beside each other within the threshold, a third a nanometre beyond it, and one that is not wide and begins
/// before all of them: it ends the threshold before the first.
#[test]
fn long_boxes_touch_those_beside_them(rt: HostRuntime) {
    let beside = corners(
        Vec3 {
            x: 0,
            y: -3_000_000_000_000_000,
            z: 0,
        },
        Vec3 {
            x: 10,
            y: -5_000_000_000_000,
            z: 0,
        },
    );
    let boxes = [
        Some(stick(5_000_000_000_000)),
        Some(beside),
        None,
        Some(stick(0)),
        Some(stick(10_000_000_000_001)),
    ];
    let found = find_touching(rt.alloc(), &boxes, &[0; 5], THRESHOLD).expect(&rt, "no fault");
    let expected = [Pair { a: 0, b: 3 }, Pair { a: 1, b: 3 }];
    assert_eq!(rt; found.as_slice(), expected.as_slice());
}

/// A place by coordinates that are counted from 6,000 km below 0 on each axis.
fn place(x: u64, y: u64, z: u64) -> Vec3
    requires x { x ≤ 10 ^ 17 }
    requires y { y ≤ 10 ^ 17 }
    requires z { z ≤ 10 ^ 17 }
    ensures x { result.x ≡ pos x -ℤ pos 6_000_000_000_000_000 }
    ensures y { result.y ≡ pos y -ℤ pos 6_000_000_000_000_000 }
    ensures z { result.z ≡ pos z -ℤ pos 6_000_000_000_000_000 }
{
    Vec3 {
        x: x as i64 - 6_000_000_000_000_000,
        y: y as i64 - 6_000_000_000_000_000,
        z: z as i64 - 6_000_000_000_000_000,
    }
}

/// How long a box is along x, by a draw: its side, or nine times that.
fn length_along_x(draw: u64, side: u64) -> u64
    requires { side ≤ 2 * 10 ^ 15 }
    ensures { result ≤ 18 * 10 ^ 15 }
{
    if draw % 8 == 0 { 9 * side } else { side }
}

/// A box by a draw, or none. Sides are at most 2,000 km, one of them in some boxes at most 18,000 km.
fn made_box(draw: u64) -> Option<AxisBox> {
    if draw % 7 == 0 {
        return None;
    }
    let side = draw / 7 % 8 * 285_571_428_571_429;
    let long = length_along_x(draw / 11, side);
    let x = draw / 64 % 13 * 1_000_000_000_000_000;
    let y = draw / 1024 % 13 * 1_000_000_000_000_000;
    let z = draw / 16_384 % 13 * 1_000_000_000_000_000;
    let least = place(x, y, z);
    let most = place(x + long, y + side, z + side);
    Some(corners(least, most))
}

/// The pairs of boxes that touch, each pair compared.
fn by_each_pair<L: Ledger>(
    blank: Blank,
    alloc: Global,
    boxes: &[Option<AxisBox>],
) -> Result<Vec<Pair>, AllocError>
    requires name { blank.name ≡ L.name }
    requires parts { blank.parts ≡ L.parts }
    requires some { 0 < blank.parts }
    requires few { length boxes.now ≤ MOST_OBJECTS }
{
    let mut steps = Steps::<L>::new(blank);
    let mut pairs = Vec::new(alloc);
    for a in 0..boxes.len() {
        for b in a + 1..boxes.len() {
            if let (Some(one), Some(other)) = (&boxes[a], &boxes[b]) {
                if touches(one, other, THRESHOLD, &mut steps) {
                    pairs.push(Pair {
                        a: a as u32,
                        b: b as u32,
                    })?;
                }
            }
        }
    }
    Ok(pairs)
}

/// Fifty boxes by draws of a fixed row of numbers.
fn made_boxes(seed: u64) -> [Option<AxisBox>; 50] {
    let mut draw = seed;
    let mut boxes = [None; 50];
    for area in &mut boxes {
        draw = draw
            .wrapping_mul(6_364_136_223_846_793_005)
            .wrapping_add(1_442_695_040_888_963_407);
        *area = made_box(draw >> 24);
    }
    boxes
}

/// By buckets the same pairs are found as where each pair is compared.
#[test]
fn buckets_give_the_pairs_that_touch(rt: HostRuntime) {
    for seed in 0..20 {
        let boxes = made_boxes(seed);
        let found = find_touching(rt.alloc(), &boxes, &[0; 50], THRESHOLD).expect(&rt, "no fault");
        let expected = by_each_pair::<Brand>(Blank::new(1), rt.alloc(), &boxes).expect(
            &rt, "no fault",
        );
        assert!(rt; !expected.is_empty());
        assert_eq!(rt; found.as_slice(), expected.as_slice());
    }
}

/// How far along x the object at a place of a row stands.
fn along(place: u32) -> i64
    requires { place ≤ 50 }
    ensures { result ≡ pos (place * 10_000_000_000_000_000) }
{
    i64::from(place) * 10_000_000_000_000_000
}

/// The box of one point there.
fn point_in_row(place: u32) -> AxisBox
    requires { place ≤ 50 }
    ensures { plain_box result ≡ box_in_row place }
{
    let x = along(place);
    let at = Vec3 { x, y: 0, z: 0 };
    AxisBox {
        least: at,
        most: at,
    }
}

/// So many of them.
fn points_in_row(alloc: Global, count: u32) -> Result<Vec<Option<AxisBox>>, AllocError>
    requires { count ≤ 50 }
    ensures { IfOk result (λ boxes. plain_boxes boxes.items ≡ boxes_in_row count) }
{
    let mut boxes = Vec::new(alloc);
    for place in 0..count {
        boxes.push(Some(point_in_row(place)))?;
    }
    Ok(boxes)
}

/// The pairs of fifty boxes in a row. Each meets eight buckets of its own, so that these are at most 400 steps.
fn pairs_in_row<L: Ledger>(
    alloc: Global,
    boxes: &[Option<AxisBox>],
    sizes: &[u64],
    steps: &mut Steps<L>,
) -> Result<Vec<Pair>, AllocError>
    requires row { plain_boxes boxes.now ≡ boxes_in_row 50 }
    requires sizes { sizes.now ≡ replicate 50 0 }
    ensures { steps.new ≤ steps.old + 400 }
{
    touching(alloc, boxes, sizes, THRESHOLD, steps)
}

fn counted_in_row<L: Ledger>(
    blank: Blank,
    alloc: Global,
    boxes: &[Option<AxisBox>],
    sizes: &[u64],
) -> Result<Vec<Pair>, AllocError>
    requires name { blank.name ≡ L.name }
    requires parts { blank.parts ≡ L.parts }
    requires some { 0 < blank.parts }
    requires row { plain_boxes boxes.now ≡ boxes_in_row 50 }
    requires sizes { sizes.now ≡ replicate 50 0 }
{
    let mut steps = Steps::<L>::new(blank);
    pairs_in_row(alloc, boxes, sizes, &mut steps)
}

#[test]
fn fifty_boxes_in_a_row_touch_in_no_pair(rt: HostRuntime) {
    let boxes = points_in_row(rt.alloc(), 50).expect(&rt, "no fault");
    let found = counted_in_row::<Brand>(Blank::new(1), rt.alloc(), &boxes, &[0; 50]).expect(
        &rt, "no fault",
    );
    assert!(rt; found.is_empty());
}
