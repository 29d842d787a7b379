//! How many pairs are unchanged.

use crate::cases::{Object, Objects, Size, case_of, one, sized, three, two};
use cj_again::unchanged;
use cj_case::Pair;
use std::alloc::Global;
use std::panic::Expect;
use std::process::Abort;

const OF_TWO: [Pair; 1] = [Pair { a: 0, b: 1 }];

const OF_THREE: [Pair; 3] = [
    Pair { a: 0, b: 1 },
    Pair { a: 0, b: 2 },
    Pair { a: 1, b: 2 },
];

/// How many of all pairs of new objects are unchanged.
fn of_all(rt: &impl Abort, alloc: Global, old: Objects, new: Objects) -> u64 {
    let old = case_of(rt, alloc, old);
    let count = match new {
        Objects::One(a) => unchanged(alloc, &old, &one(rt, alloc, a), &[]),
        Objects::Two(a, b) => unchanged(alloc, &old, &two(rt, alloc, a, b), &OF_TWO),
        Objects::Sized(a, b, size) => unchanged(
            alloc,
            &old,
            &sized(rt, alloc, a, b, size),
            &OF_TWO,
        ),
        Objects::Three(a, b, c) => unchanged(alloc, &old, &three(rt, alloc, a, b, c), &OF_THREE),
    };
    count.expect(rt, "no fault")
}

/// Two that pass each other.
const PASSING: Objects = Objects::Two(Object::AlongY, Object::AlongZ);

#[test]
fn a_pair_is_unchanged_where_both_objects_are(rt: HostRuntime) {
    let alloc = rt.alloc();
    let behind = Objects::Three(Object::AlongY, Object::AlongZ, Object::Distant);
    let in_front = Objects::Three(Object::Distant, Object::AlongY, Object::AlongZ);
    assert_eq!(rt; of_all(&rt, alloc, PASSING, PASSING), 1);
    assert_eq!(rt; of_all(&rt, alloc, PASSING, behind), 1);
    assert_eq!(rt; of_all(&rt, alloc, PASSING, in_front), 1);
    assert_eq!(rt; of_all(&rt, alloc, in_front, PASSING), 1);
    assert_eq!(rt;
        of_all(&rt, alloc, PASSING, Objects::One(Object::AlongY)),
        0
    );
}

#[test]
fn a_pair_is_changed_where_a_name_or_a_size_or_the_order_is(rt: HostRuntime) {
    let alloc = rt.alloc();
    let renamed = Objects::Two(Object::Renamed, Object::AlongZ);
    let larger = Objects::Sized(Object::AlongY, Object::AlongZ, Size::Nanometre);
    let turned = Objects::Two(Object::AlongZ, Object::AlongY);
    assert_eq!(rt; of_all(&rt, alloc, PASSING, renamed), 0);
    assert_eq!(rt; of_all(&rt, alloc, PASSING, larger), 0);
    assert_eq!(rt; of_all(&rt, alloc, PASSING, turned), 0);
    assert_eq!(rt;
        of_all(&rt, alloc, Objects::One(Object::AlongY), PASSING),
        0
    );
}

#[test]
fn an_object_that_stands_twice_is_the_first_and_the_last(rt: HostRuntime) {
    let alloc = rt.alloc();
    let old = Objects::Three(Object::AlongY, Object::AlongZ, Object::AlongY);
    let twice = Objects::Three(Object::AlongY, Object::AlongY, Object::AlongZ);
    let turned = Objects::Three(Object::AlongZ, Object::AlongY, Object::AlongZ);
    assert_eq!(rt; of_all(&rt, alloc, old, twice), 3);
    assert_eq!(rt; of_all(&rt, alloc, old, turned), 2);
}
