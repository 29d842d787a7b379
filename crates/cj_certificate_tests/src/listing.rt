ghost use Rattle.std.specs.Prelude.{◌≡◌, ◌≤◌, ◌≤ℤ◌, IfOk, length};

use cj_blocks::{Block, blocks};
use cj_case::{AxisBox, BySlot, Pair};
use cj_track::Vec3;
use std::alloc::{AllocError, Global};
use std::panic::Expect;

/// 5 km in nm.
const THRESHOLD: u64 = 5_000_000_000_000;

const FIRST_TWO: Pair = Pair { a: 0, b: 1 };

/// The ends of a track along y, and of one that crosses it along z, 1 km further out.
const SOUTH: Vec3 = Vec3 {
    x: 7_000_000_000_000_000,
    y: -225_000_000_000_000,
    z: 0,
};

const NORTH: Vec3 = Vec3 {
    x: 7_000_000_000_000_000,
    y: 225_000_000_000_000,
    z: 0,
};

const LOW: Vec3 = Vec3 {
    x: 7_001_000_000_000_000,
    y: 0,
    z: -225_000_000_000_000,
};

const HIGH: Vec3 = Vec3 {
    x: 7_001_000_000_000_000,
    y: 0,
    z: 225_000_000_000_000,
};

/// At rest, 5 km apart.
const HERE: Vec3 = Vec3 {
    x: 7_000_000_000_000_000,
    y: 0,
    z: 0,
};

const THERE: Vec3 = Vec3 {
    x: 7_005_000_000_000_000,
    y: 0,
    z: 0,
};

fn corners(least: Vec3, most: Vec3) -> AxisBox
    requires x { least.x ≤ℤ most.x }
    requires y { least.y ≤ℤ most.y }
    requires z { least.z ≤ℤ most.z }
{
    AxisBox { least, most }
}

fn place(at: Vec3) -> AxisBox {
    AxisBox {
        least: at,
        most: at,
    }
}

fn block(object: u32, first: u32, last: u32, area: AxisBox) -> Block
    requires { first ≤ last }
{
    Block {
        object,
        first,
        last,
        area,
    }
}

/// The boxes of two objects in two slots.
fn of_two(
    alloc: Global,
    first: [Option<AxisBox>; 2],
    second: [Option<AxisBox>; 2],
) -> Result<BySlot<Option<AxisBox>>, AllocError>
    ensures { IfOk result (λ boxes. length boxes.rows ≡ 2) }
{
    let mut boxes = BySlot::new(alloc, 2);
    boxes.push(Vec::from_slice(alloc, &first)?)?;
    boxes.push(Vec::from_slice(alloc, &second)?)?;
    Ok(boxes)
}

/// The boxes of one object in ten slots.
fn of_one(alloc: Global, row: [Option<AxisBox>; 10]) -> Result<BySlot<Option<AxisBox>>, AllocError>
    ensures { IfOk result (λ boxes. length boxes.rows ≡ 1) }
{
    let mut boxes = BySlot::new(alloc, 10);
    boxes.push(Vec::from_slice(alloc, &row)?)?;
    Ok(boxes)
}

#[test]
fn objects_at_rest_have_one_box(rt: HostRuntime) {
    let here = place(HERE);
    let there = place(THERE);
    let boxes = of_two(rt.alloc(), [Some(here); 2], [Some(there); 2]).expect(&rt, "no fault");
    let found = blocks(rt.alloc(), &[FIRST_TWO], 2, &boxes, &[0, 0], THRESHOLD).expect(
        &rt, "no fault",
    );
    assert_eq!(rt;
        found.as_slice(),
        [block(0, 0, 1, here), block(1, 0, 1, there)].as_slice()
    );
}

/// The box of the first object round both slots touches nothing new. That of the second would touch it in the last slot.
#[test]
fn two_tracks_cross_at_one_kilometre(rt: HostRuntime) {
    let first = corners(SOUTH, NORTH);
    let second = corners(LOW, HIGH);
    let last = place(HIGH);
    let boxes = of_two(
        rt.alloc(),
        [Some(first), Some(place(NORTH))],
        [Some(second), Some(last)],
    )
    .expect(&rt, "no fault");
    let found = blocks(rt.alloc(), &[FIRST_TWO], 2, &boxes, &[0, 0], THRESHOLD).expect(
        &rt, "no fault",
    );
    let expected = [
        block(0, 0, 1, first),
        block(1, 0, 0, second),
        block(1, 1, 1, last),
    ];
    assert_eq!(rt; found.as_slice(), expected.as_slice());
    // A pair that is not kept parts nothing.
    let found = blocks(rt.alloc(), &[], 2, &boxes, &[0, 0], THRESHOLD).expect(&rt, "no fault");
    let expected = [block(0, 0, 1, first), block(1, 0, 1, second)];
    assert_eq!(rt; found.as_slice(), expected.as_slice());
}

#[test]
fn a_block_has_four_slots_with_boxes(rt: HostRuntime) {
    let here = place(HERE);
    let all = Some(here);
    let boxes = of_one(
        rt.alloc(),
        [all, all, all, all, all, all, None, all, all, all],
    )
    .expect(&rt, "no fault");
    let found = blocks(rt.alloc(), &[], 1, &boxes, &[0], THRESHOLD).expect(&rt, "no fault");
    let expected = [
        block(0, 0, 3, here),
        block(0, 4, 4, here),
        block(0, 5, 5, here),
        block(0, 7, 7, here),
        block(0, 8, 9, here),
    ];
    assert_eq!(rt; found.as_slice(), expected.as_slice());
    let none = BySlot::new(rt.alloc(), 10);
    let found = blocks(rt.alloc(), &[], 0, &none, &[], THRESHOLD).expect(&rt, "no fault");
    assert!(rt; found.is_empty());
    let bare = BySlot::of_one(rt.alloc(), 2, 0, None).expect(&rt, "no fault");
    let found = blocks(rt.alloc(), &[], 2, &bare, &[0, 0], THRESHOLD).expect(&rt, "no fault");
    assert!(rt; found.is_empty());
}

/// From 10 to 12 km beside the first object, and then from 6 to 8 km, which is within the threshold where the first is 1 km in size.
#[test]
fn sizes_part_blocks(rt: HostRuntime) {
    let beside = |y| Vec3 {
        x: 7_000_000_000_000_000,
        y,
        z: 0,
    };
    let far = corners(beside(10_000_000_000_000), beside(12_000_000_000_000));
    let near = corners(beside(6_000_000_000_000), beside(8_000_000_000_000));
    let here = Some(place(HERE));
    let boxes = of_two(rt.alloc(), [here; 2], [Some(far), Some(near)]).expect(&rt, "no fault");
    let found = blocks(rt.alloc(), &[FIRST_TWO], 2, &boxes, &[0, 0], THRESHOLD).expect(
        &rt, "no fault",
    );
    assert_eq!(rt; found.len(), 2);
    let found = blocks(
        rt.alloc(),
        &[FIRST_TWO],
        2,
        &boxes,
        &[1_000_000_000_000, 0],
        THRESHOLD,
    )
    .expect(&rt, "no fault");
    assert_eq!(rt; found.len(), 3);
}
