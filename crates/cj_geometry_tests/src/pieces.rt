//! Places, rates and control values of a piece, and the slots of a window.
ghost use Rattle.std.specs.Prelude.{◌≡◌, ◌≤◌};

use cj_base::{Tick, Window};
use cj_case::slot_count;
use cj_hermite::{Piece, controls, point, rate};
use cj_interval::Span;
use cj_track::Vec3;

fn exactly(value: i128) -> Span {
    Span {
        lo: value,
        hi: value,
    }
}

/// From (7000, -225, 0) km to (7000, 225, 0) km in a minute, at 7.5 km/s.
fn straight() -> Piece
    ensures first { result.t0.micros ≡ 1735689600000000 }
    ensures last { result.t1.micros ≡ 1735689660000000 }
{
    let v = Vec3 {
        x: 0,
        y: 7_500_000_000_000,
        z: 0,
    };
    Piece {
        t0: Tick {
            micros: 1_735_689_600_000_000,
        },
        t1: Tick {
            micros: 1_735_689_660_000_000,
        },
        p0: Vec3 {
            x: 7_000_000_000_000_000,
            y: -225_000_000_000_000,
            z: 0,
        },
        v0: v,
        p1: Vec3 {
            x: 7_000_000_000_000_000,
            y: 225_000_000_000_000,
            z: 0,
        },
        v1: v,
    }
}

/// One nanometre in two microseconds, from rest to rest.
fn smallest() -> Piece
    ensures first { result.t0.micros ≡ 1735689600000000 }
    ensures last { result.t1.micros ≡ 1735689600000002 }
{
    let rest = Vec3 { x: 0, y: 0, z: 0 };
    Piece {
        t0: Tick {
            micros: 1_735_689_600_000_000,
        },
        t1: Tick {
            micros: 1_735_689_600_000_002,
        },
        p0: rest,
        v0: rest,
        p1: Vec3 { x: 1, y: 0, z: 0 },
        v1: rest,
    }
}

#[test]
fn a_straight_line_is_met_exactly(rt: HostRuntime) {
    let piece = straight();
    let quarter = Tick {
        micros: 1_735_689_615_000_000,
    };
    let at = point(&piece, quarter);
    assert_eq!(rt; at.x, exactly(7_000_000_000_000_000));
    assert_eq!(rt; at.y, exactly(-112_500_000_000_000));
    assert_eq!(rt; at.z, exactly(0));
    let speed = rate(&piece, quarter);
    assert_eq!(rt; speed.x, exactly(0));
    assert_eq!(rt; speed.y, exactly(7_500_000_000_000));
}

#[test]
fn half_a_nanometre_lies_between_its_neighbours(rt: HostRuntime) {
    let piece = smallest();
    let middle = Tick {
        micros: 1_735_689_600_000_001,
    };
    assert_eq!(rt; controls(&piece).x, [0, 0, 3_000_000, 3_000_000]);
    assert_eq!(rt; point(&piece, middle).x, Span { lo: 0, hi: 1 });
    assert_eq!(rt; rate(&piece, middle).x, exactly(750_000));
}

#[test]
fn the_nodes_are_met_exactly(rt: HostRuntime) {
    let piece = straight();
    assert_eq!(rt; point(&piece, piece.t0).y, exactly(-225_000_000_000_000));
    assert_eq!(rt; point(&piece, piece.t1).y, exactly(225_000_000_000_000));
}

/// So many microseconds after a full minute.
fn after(micros: u64) -> Tick
    requires { micros ≤ 200000000 }
{
    Tick {
        micros: 1_735_689_600_000_000 + micros,
    }
}

/// How many slots a window has.
fn slots_between(first: u64, last: u64) -> u32
    requires first { first ≤ 200000000 }
    requires last { last ≤ 200000000 }
{
    slot_count(Window {
        first: after(first),
        last: after(last),
    })
}

#[test]
fn a_slot_is_a_minute_from_the_first_tick_on(rt: HostRuntime) {
    assert_eq!(rt; slots_between(1, 0), 0);
    assert_eq!(rt; slots_between(7, 7), 1);
    assert_eq!(rt; slots_between(7, 60_000_006), 1);
    assert_eq!(rt; slots_between(7, 60_000_007), 2);
    assert_eq!(rt; slots_between(0, 120_000_000), 3);
}
