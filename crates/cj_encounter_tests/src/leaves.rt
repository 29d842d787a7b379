//! Which leaves are one encounter.
ghost use Rattle.std.specs.Prelude.{◌≡◌, ◌+◌, ◌<◌, ◌≤◌};

use cj_base::Tick;
use cj_case::{Cell, Encounter, Kind, Leaf, Mark, Pair};
use cj_meet::encounters;
use std::panic::Expect;

const START: u64 = 1_735_689_600_000_000;

const AB: Pair = Pair { a: 0, b: 1 };

const AC: Pair = Pair { a: 0, b: 2 };

fn tick(at: u64) -> Tick
    requires { at < 100 }
    ensures { result.micros ≡ 1_735_689_600_000_000 + at }
{
    Tick { micros: START + at }
}

fn leaf(pair: Pair, first: u64, last: u64, kind: Kind) -> Leaf
    requires order { first ≤ last }
    requires early { last < 100 }
    ensures pair { result.cell.pair ≡ pair }
    ensures first { result.cell.first.micros ≡ 1_735_689_600_000_000 + first }
    ensures last { result.cell.last.micros ≡ 1_735_689_600_000_000 + last }
    ensures kind { result.kind ≡ kind }
{
    Leaf {
        cell: Cell {
            pair,
            root: 0,
            first: tick(first),
            last: tick(last),
        },
        kind,
    }
}

#[test]
fn consecutive_leaves_are_one_encounter(rt: HostRuntime) {
    let leaves = [
        leaf(AB, 10, 19, Kind::Undecided),
        leaf(AB, 20, 20, Kind::Near),
        leaf(AB, 21, 30, Kind::Undecided),
    ];
    let found = encounters(rt.alloc(), &leaves).expect(&rt, "no fault");
    let one = Encounter {
        pair: AB,
        first: tick(10),
        last: tick(30),
        mark: Mark::Near,
        leaf: 0,
        past: 3,
    };
    assert_eq!(rt; found.as_slice(), [one].as_slice());
}

#[test]
fn far_ticks_and_other_pairs_part_encounters(rt: HostRuntime) {
    let leaves = [
        leaf(AB, 10, 19, Kind::Near),
        leaf(AB, 20, 29, Kind::Far),
        leaf(AB, 30, 39, Kind::Undecided),
        leaf(AC, 40, 49, Kind::Near),
    ];
    let found = encounters(rt.alloc(), &leaves).expect(&rt, "no fault");
    let expected = [
        Encounter {
            pair: AB,
            first: tick(10),
            last: tick(19),
            mark: Mark::Near,
            leaf: 0,
            past: 1,
        },
        Encounter {
            pair: AB,
            first: tick(30),
            last: tick(39),
            mark: Mark::Undecided,
            leaf: 2,
            past: 3,
        },
        Encounter {
            pair: AC,
            first: tick(40),
            last: tick(49),
            mark: Mark::Near,
            leaf: 3,
            past: 4,
        },
    ];
    assert_eq!(rt; found.as_slice(), expected.as_slice());
}

#[test]
fn no_leaves_have_no_encounters(rt: HostRuntime) {
    assert_eq!(rt;
        encounters(rt.alloc(), &[]).expect(&rt, "no fault").len(),
        0
    );
}
