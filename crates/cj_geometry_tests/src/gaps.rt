ghost use Rattle.std.specs.Prelude.{◌≡◌, ◌+◌, ◌≤◌};
ghost use Rattle.cj_track.specs.Limits.{MAX_COORDINATE, MAX_RATE, IsWithin};

use cj_base::Tick;
use cj_bezier::{
    Gap, Hull, Verdict, gap, greatest_square, hull_ready, join, judge, least_square, radius,
    supports, verdict,
};
use cj_case::{Kind, Shell};
use cj_hermite::{Piece, ready};
use cj_interval::{Divisor, Span};
use cj_track::Vec3;

/// Five kilometres.
const THRESHOLD: u64 = 5_000_000_000_000;

/// The tick some microseconds into 2025.
fn into(micros: u64) -> Tick
    requires { micros ≤ 60000000 }
    ensures { result.micros ≡ 1735689600000000 + micros }
{
    Tick {
        micros: 1_735_689_600_000_000 + micros,
    }
}

/// A minute from one place to another.
fn minute(p0: Vec3, v: Vec3, p1: Vec3) -> Piece
    requires first_place { IsWithin MAX_COORDINATE p0.x × IsWithin MAX_COORDINATE p0.y × IsWithin MAX_COORDINATE p0.z }
    requires rate { IsWithin MAX_RATE v.x × IsWithin MAX_RATE v.y × IsWithin MAX_RATE v.z }
    requires last_place { IsWithin MAX_COORDINATE p1.x × IsWithin MAX_COORDINATE p1.y × IsWithin MAX_COORDINATE p1.z }
    ensures first { result.t0.micros ≡ 1735689600000000 }
    ensures last { result.t1.micros ≡ 1735689660000000 }
{
    Piece {
        t0: into(0),
        t1: into(60_000_000),
        p0,
        v0: v,
        p1,
        v1: v,
    }
}

/// A minute at rest, `x` nm from the origin.
fn resting(x: i64) -> Piece
    requires { IsWithin MAX_COORDINATE x }
    ensures first { result.t0.micros ≡ 1735689600000000 }
    ensures last { result.t1.micros ≡ 1735689660000000 }
{
    let place = Vec3 { x, y: 0, z: 0 };
    minute(place, Vec3 { x: 0, y: 0, z: 0 }, place)
}

/// At 7.5 km/s along y, 7000 km out.
fn along_y() -> Piece
    ensures first { result.t0.micros ≡ 1735689600000000 }
    ensures last { result.t1.micros ≡ 1735689660000000 }
{
    minute(
        Vec3 {
            x: 7_000_000_000_000_000,
            y: -225_000_000_000_000,
            z: 0,
        },
        Vec3 {
            x: 0,
            y: 7_500_000_000_000,
            z: 0,
        },
        Vec3 {
            x: 7_000_000_000_000_000,
            y: 225_000_000_000_000,
            z: 0,
        },
    )
}

/// At 7.5 km/s along z, one kilometre further out.
fn along_z() -> Piece
    ensures first { result.t0.micros ≡ 1735689600000000 }
    ensures last { result.t1.micros ≡ 1735689660000000 }
{
    minute(
        Vec3 {
            x: 7_001_000_000_000_000,
            y: 0,
            z: -225_000_000_000_000,
        },
        Vec3 {
            x: 0,
            y: 0,
            z: 7_500_000_000_000,
        },
        Vec3 {
            x: 7_001_000_000_000_000,
            y: 0,
            z: 225_000_000_000_000,
        },
    )
}

/// The hull of a piece over the ticks from `first` to `last`.
fn hull(piece: &Piece, first: Tick, last: Tick) -> Hull
    requires order { first.micros ≤ last.micros }
    requires after { piece.now.t0.micros ≤ first.micros }
    requires before { last.micros ≤ piece.now.t1.micros }
{
    hull_ready(&ready(piece, &Divisor::new(1)), first, last)
}

/// The gap of two pieces over some of their minute.
fn gap_over(a: &Piece, b: &Piece, first: u64, last: u64) -> Gap
    requires order { first ≤ last }
    requires inside { last ≤ 60000000 }
    requires a_first { a.now.t0.micros ≡ 1735689600000000 }
    requires a_last { a.now.t1.micros ≡ 1735689660000000 }
    requires b_first { b.now.t0.micros ≡ 1735689600000000 }
    requires b_last { b.now.t1.micros ≡ 1735689660000000 }
{
    gap(
        &hull(a, into(first), into(last)),
        &hull(b, into(first), into(last)),
    )
}

/// What two pieces are judged to be over some of their minute.
fn judged(a: &Piece, b: &Piece, first: u64, last: u64) -> Verdict
    requires order { first ≤ last }
    requires inside { last ≤ 60000000 }
    requires a_first { a.now.t0.micros ≡ 1735689600000000 }
    requires a_last { a.now.t1.micros ≡ 1735689660000000 }
    requires b_first { b.now.t0.micros ≡ 1735689600000000 }
    requires b_last { b.now.t1.micros ≡ 1735689660000000 }
{
    let one = Divisor::new(1);
    judge(
        &ready(a, &one),
        &ready(b, &one),
        THRESHOLD,
        into(first),
        into(last),
    )
}

#[test]
fn two_pieces_are_judged_over_all_their_ticks(rt: HostRuntime) {
    let a = along_y();
    let b = along_z();
    assert_eq!(rt; judged(&a, &b, 0, 59_999_999), Verdict::Split);
    assert_eq!(rt; judged(&a, &b, 0, 15_000_000), Verdict::Far);
    assert_eq!(rt; judged(&a, &b, 29_600_000, 30_400_000), Verdict::Near);
    assert_eq!(rt; judged(&a, &a, 0, 59_999_999), Verdict::Near);
}

#[test]
fn two_tracks_cross_at_one_kilometre(rt: HostRuntime) {
    let a = along_y();
    let b = along_z();
    let whole = gap_over(&a, &b, 0, 59_999_999);
    assert_eq!(rt; verdict(&whole, THRESHOLD), Verdict::Split);
    let early = gap_over(&a, &b, 0, 15_000_000);
    assert_eq!(rt; verdict(&early, THRESHOLD), Verdict::Far);
    let middle = gap_over(&a, &b, 29_600_000, 30_400_000);
    assert_eq!(rt; verdict(&middle, THRESHOLD), Verdict::Near);
}

#[test]
fn exactly_at_the_threshold(rt: HostRuntime) {
    let a = resting(7_000_000_000_000_000);
    let apart = gap_over(&a, &resting(7_005_000_000_000_000), 0, 59_999_999);
    assert_eq!(rt; verdict(&apart, THRESHOLD), Verdict::Near);
    assert!(rt; supports(&apart, THRESHOLD, Kind::Undecided));
    let further = gap_over(&a, &resting(7_005_000_000_000_001), 0, 59_999_999);
    assert_eq!(rt; verdict(&further, THRESHOLD), Verdict::Far);
    assert!(rt; supports(&further, THRESHOLD, Kind::Undecided));
}

#[test]
fn rounded_ends_leave_the_threshold_undecided(rt: HostRuntime) {
    let v = Vec3 { x: 0, y: 1, z: 0 };
    let a = minute(
        Vec3 {
            x: 7_000_000_000_000_000,
            y: 0,
            z: 0,
        },
        v,
        Vec3 {
            x: 7_000_000_000_000_000,
            y: 60,
            z: 0,
        },
    );
    let b = minute(
        Vec3 {
            x: 7_005_000_000_000_000,
            y: 0,
            z: 0,
        },
        v,
        Vec3 {
            x: 7_005_000_000_000_000,
            y: 60,
            z: 0,
        },
    );
    let most = gap_over(&a, &b, 0, 59_999_999);
    assert_eq!(rt; verdict(&most, THRESHOLD), Verdict::Undecided);
    let end = gap_over(&a, &b, 60_000_000, 60_000_000);
    assert_eq!(rt; verdict(&end, THRESHOLD), Verdict::Near);
}

#[test]
fn a_shell_holds_the_radii(rt: HostRuntime) {
    let rest = resting(7_000_000_000_000_000);
    let shell = radius(&hull(&rest, into(0), into(59_999_999)));
    assert_eq!(rt;
        shell,
        Shell {
            lo: 7_000_000_000_000_000,
            hi: 7_000_000_000_000_000
        }
    );
    let near = Shell { lo: 3, hi: 5 };
    assert_eq!(rt; join(near, Shell { lo: 4, hi: 9 }), Shell { lo: 3, hi: 9 });
}

#[test]
fn a_square_distance_lies_between_its_whole_bounds(rt: HostRuntime) {
    let a = resting(7_000_000_000_000_000);
    let b = resting(7_005_000_000_000_000);
    let apart = gap_over(&a, &b, 0, 59_999_999);
    let square: u128 = 25_000_000_000_000_000_000_000_000;
    assert_eq!(rt;
        apart.terms[3],
        Span {
            lo: 500_000_000_000_000_000_000_000_000,
            hi: 500_000_000_000_000_000_000_000_000
        }
    );
    assert_eq!(rt; least_square(&apart), square);
    assert_eq!(rt; greatest_square(&apart), square);
}
