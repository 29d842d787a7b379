//! The state of an object relative to another. What is expected was computed apart, in exact whole numbers.
ghost use Rattle.std.specs.Prelude.{◌≡◌};

use cj_base::Tick;
use cj_case::Pair;
use cj_hermite::Piece;
use cj_rtn::{AxisValues, Rtn, relative_state, rtn};
use cj_samples::{crossing, tick};
use cj_track::{Node, Vec3};
use std::panic::Expect;

const START: Tick = Tick {
    micros: 1_735_689_600_000_000,
};

/// 7,000 km from the centre at 7.5 km/s, along the axes.
const ROUND: Node = Node {
    at: START,
    p: Vec3 {
        x: 7_000_000_000_000_000,
        y: 0,
        z: 0,
    },
    v: Vec3 {
        x: 0,
        y: 7_500_000_000_000,
        z: 0,
    },
};

/// What the second of two nodes is relative to the first: places in nm, rates in nm/s.
struct Case {
    first: Node,
    second: Node,
    expected: Option<Rtn>,
}

const CASES: [Case; 11] = [
    // Quotients of negative numbers are rounded down.
    Case {
        first: ROUND,
        second: Node {
            at: START,
            p: Vec3 {
                x: 6_999_999_999_999_999,
                y: -1,
                z: -1,
            },
            v: Vec3 {
                x: -1,
                y: 7_499_999_999_999,
                z: -1,
            },
        },
        expected: Some(Rtn {
            place: AxisValues {
                r: -1,
                t: -1,
                n: -1,
            },
            rate: AxisValues {
                r: -1,
                t: -1,
                n: -1,
            },
        }),
    },
    // In no plane of the coordinates.
    Case {
        first: Node {
            at: START,
            p: Vec3 {
                x: -3_000_000_000_000_000,
                y: -4_000_000_000_000_000,
                z: -12_000_000_000_000_000,
            },
            v: Vec3 {
                x: -1_000_000_000_000,
                y: 2_000_000_000_000,
                z: -500_000_000_000,
            },
        },
        second: Node {
            at: START,
            p: Vec3 {
                x: -3_001_000_000_000_000,
                y: -4_002_000_000_000_000,
                z: -12_003_000_000_000_000,
            },
            v: Vec3 {
                x: -1_000_000_000_000,
                y: 2_000_000_000_000,
                z: -500_000_000_000,
            },
        },
        expected: Some(Rtn {
            place: AxisValues {
                r: 3_615_384_615_384,
                t: -776_466_994_781,
                n: -571_045_610_138,
            },
            rate: AxisValues { r: 0, t: 0, n: 0 },
        }),
    },
    Case {
        first: Node {
            at: START,
            p: Vec3 {
                x: 3_000_000_000_000_000,
                y: 4_000_000_000_000_000,
                z: 0,
            },
            v: Vec3 {
                x: -4_000_000_000_000,
                y: 3_000_000_000_000,
                z: 5_000_000_000_000,
            },
        },
        second: Node {
            at: START,
            p: Vec3 {
                x: 3_000_000_000_000_007,
                y: 3_999_999_999_999_991,
                z: 11,
            },
            v: Vec3 {
                x: -3_999_999_999_987,
                y: 2_999_999_999_983,
                z: 5_000_000_000_019,
            },
        },
        expected: Some(Rtn {
            place: AxisValues { r: -3, t: 0, n: 15 },
            rate: AxisValues {
                r: -6,
                t: -2,
                n: 28,
            },
        }),
    },
    // Two objects cross at one kilometre.
    Case {
        first: Node {
            at: START,
            p: Vec3 {
                x: 7_000_000_000_000_000,
                y: 0,
                z: 0,
            },
            v: Vec3 {
                x: 0,
                y: 7_500_000_000_000,
                z: 0,
            },
        },
        second: Node {
            at: START,
            p: Vec3 {
                x: 7_001_000_000_000_000,
                y: 0,
                z: 0,
            },
            v: Vec3 {
                x: 0,
                y: 0,
                z: 7_500_000_000_000,
            },
        },
        expected: Some(Rtn {
            place: AxisValues {
                r: 1_000_000_000_000,
                t: 0,
                n: 0,
            },
            rate: AxisValues {
                r: 0,
                t: -7_500_000_000_000,
                n: 7_500_000_000_000,
            },
        }),
    },
    // The shortest normal that gives axes.
    Case {
        first: Node {
            at: START,
            p: Vec3 {
                x: 1_000_000_000_000_000,
                y: 0,
                z: 0,
            },
            v: Vec3 {
                x: 0,
                y: 10_000_000_000_000,
                z: 0,
            },
        },
        second: Node {
            at: START,
            p: Vec3 {
                x: 1_000_000_000_000_000,
                y: 0,
                z: 0,
            },
            v: Vec3 {
                x: 0,
                y: 10_000_000_000_000,
                z: 0,
            },
        },
        expected: Some(Rtn {
            place: AxisValues { r: 0, t: 0, n: 0 },
            rate: AxisValues { r: 0, t: 0, n: 0 },
        }),
    },
    // One that is shorter.
    Case {
        first: Node {
            at: START,
            p: Vec3 {
                x: 1_000_000_000_000_000,
                y: 0,
                z: 0,
            },
            v: Vec3 {
                x: 0,
                y: 9_999_999_999_999,
                z: 0,
            },
        },
        second: Node {
            at: START,
            p: Vec3 {
                x: 1_000_000_000_000_000,
                y: 0,
                z: 0,
            },
            v: Vec3 {
                x: 0,
                y: 9_999_999_999_999,
                z: 0,
            },
        },
        expected: None,
    },
    // A place that is too near.
    Case {
        first: Node {
            at: START,
            p: Vec3 {
                x: 999_999_999_999_999,
                y: 0,
                z: 0,
            },
            v: Vec3 {
                x: 0,
                y: 20_000_000_000_000,
                z: 0,
            },
        },
        second: Node {
            at: START,
            p: Vec3 {
                x: 999_999_999_999_999,
                y: 0,
                z: 0,
            },
            v: Vec3 {
                x: 0,
                y: 20_000_000_000_000,
                z: 0,
            },
        },
        expected: None,
    },
    // Beside the first object, and the first from there.
    Case {
        first: Node {
            at: START,
            p: Vec3 {
                x: 7_000_000_000_000_000,
                y: 0,
                z: 0,
            },
            v: Vec3 {
                x: 0,
                y: 7_500_000_000_000,
                z: 0,
            },
        },
        second: Node {
            at: START,
            p: Vec3 {
                x: 7_000_000_000_000_000,
                y: 1_002_000_000_000_000,
                z: 0,
            },
            v: Vec3 {
                x: 0,
                y: 7_500_000_000_000,
                z: 0,
            },
        },
        expected: Some(Rtn {
            place: AxisValues {
                r: 0,
                t: 1_002_000_000_000_000,
                n: 0,
            },
            rate: AxisValues { r: 0, t: 0, n: 0 },
        }),
    },
    Case {
        first: Node {
            at: START,
            p: Vec3 {
                x: 7_000_000_000_000_000,
                y: 1_002_000_000_000_000,
                z: 0,
            },
            v: Vec3 {
                x: 0,
                y: 7_500_000_000_000,
                z: 0,
            },
        },
        second: Node {
            at: START,
            p: Vec3 {
                x: 7_000_000_000_000_000,
                y: 0,
                z: 0,
            },
            v: Vec3 {
                x: 0,
                y: 7_500_000_000_000,
                z: 0,
            },
        },
        expected: Some(Rtn {
            place: AxisValues {
                r: -141_981_922_505_315,
                t: -991_889_678_180_863,
                n: 0,
            },
            rate: AxisValues { r: 0, t: 0, n: 0 },
        }),
    },
    // At rest, and straight up.
    Case {
        first: Node {
            at: START,
            p: Vec3 {
                x: 7_000_000_000_000_000,
                y: 0,
                z: 0,
            },
            v: Vec3 { x: 0, y: 0, z: 0 },
        },
        second: Node {
            at: START,
            p: Vec3 {
                x: 7_000_000_000_000_000,
                y: 0,
                z: 0,
            },
            v: Vec3 {
                x: 0,
                y: 7_500_000_000_000,
                z: 0,
            },
        },
        expected: None,
    },
    Case {
        first: Node {
            at: START,
            p: Vec3 {
                x: 7_000_000_000_000_000,
                y: 0,
                z: 0,
            },
            v: Vec3 {
                x: 7_500_000_000_000,
                y: 0,
                z: 0,
            },
        },
        second: Node {
            at: START,
            p: Vec3 {
                x: 7_000_000_000_000_000,
                y: 0,
                z: 0,
            },
            v: Vec3 {
                x: 7_500_000_000_000,
                y: 7_500_000_000_000,
                z: 0,
            },
        },
        expected: None,
    },
];

/// A piece of a minute from the place and the rate of a node to the same.
fn piece_from(node: &Node) -> Piece
    ensures first { result.t0.micros ≡ 1_735_689_600_000_000 }
    ensures last { result.t1.micros ≡ 1_735_689_660_000_000 }
{
    Piece {
        t0: START,
        t1: tick(60_000_000),
        p0: node.p,
        v0: node.v,
        p1: node.p,
        v1: node.v,
    }
}

/// The first of these cases that is wrong.
fn first_wrong(cases: &[Case]) -> Option<usize> {
    cases.iter().position(|case| {
        rtn(&piece_from(&case.first), &piece_from(&case.second), START) != case.expected
    })
}

#[test]
fn nodes_relative_to_others(rt: HostRuntime) {
    assert_eq!(rt; first_wrong(&CASES), None);
}

/// Two places a tenth of a metre and two microseconds apart, without a rate: in the middle it is 75 km/s.
fn leap() -> Piece
    ensures first { result.t0.micros ≡ 1_735_689_600_000_000 }
    ensures last { result.t1.micros ≡ 1_735_689_600_000_002 }
{
    let rest = Vec3 { x: 0, y: 0, z: 0 };
    Piece {
        t0: START,
        t1: tick(2),
        p0: Vec3 {
            x: 7_000_000_000_000_000,
            y: 0,
            z: 0,
        },
        v0: rest,
        p1: Vec3 {
            x: 7_000_000_100_000_000,
            y: 0,
            z: 0,
        },
        v1: rest,
    }
}

/// Whichever of both is too fast.
#[test]
fn none_where_an_interpolated_rate_is_too_high(rt: HostRuntime) {
    let round = piece_from(&ROUND);
    assert_eq!(rt; rtn(&round, &leap(), tick(1)), None);
    assert_eq!(rt; rtn(&leap(), &round, tick(1)), None);
}

/// As the message of their closest approach tells.
#[test]
fn two_tracks_cross_at_one_kilometre(rt: HostRuntime) {
    let problem = crossing(rt.alloc()).expect(&rt, "no fault");
    let pair = Pair { a: 0, b: 1 };
    let expected = Rtn {
        place: AxisValues {
            r: 1_000_000_000_000,
            t: 0,
            n: 0,
        },
        rate: AxisValues {
            r: 0,
            t: -7_500_000_000_000,
            n: 7_500_000_000_000,
        },
    };
    assert_eq!(rt;
        relative_state(&problem, pair, tick(30_000_000)),
        Some(expected)
    );
}

/// The tracks last a minute, and there are two.
#[test]
fn none_where_an_object_has_no_state(rt: HostRuntime) {
    let problem = crossing(rt.alloc()).expect(&rt, "no fault");
    assert_eq!(rt;
        relative_state(&problem, Pair { a: 0, b: 1 }, tick(60_000_001)),
        None
    );
    assert_eq!(rt;
        relative_state(&problem, Pair { a: 0, b: 2 }, tick(0)),
        None
    );
    assert_eq!(rt;
        relative_state(&problem, Pair { a: 2, b: 3 }, tick(0)),
        None
    );
}
