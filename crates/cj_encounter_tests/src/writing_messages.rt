ghost use Rattle.std.specs.Prelude.{◌≡◌, ◌+◌, ◌<◌, IfOk};
ghost use Rattle.cj_base.specs.Decimals.{IsReadable, number_of};
ghost use Rattle.cj_track.specs.Limits.{MAX_COORDINATE, MAX_RATE, IsWithin};
ghost use Rattle.cj_track.specs.Labels.{is_file_name, is_label};
ghost use Rattle.cj_track.specs.Segments.{node_count};

use crate::expected::crossing;
use cj_base::{Decimal, Text, Tick, Window};
use cj_case::{Pair, Primaries, Problem, Sizes, Tracks};
use cj_cdm::{CovarianceIndex, Stamp};
use cj_epoch::leap_between;
use cj_kvn::read_decimal;
use cj_track::{Frame, Matrices, Matrix, Node, Nodes, Segment, Segments, Track, Vec3};
use std::alloc::{AllocError, Global};
use std::panic::Expect;
use std::process::Abort;

/// 2025-01-01T00:00:00 in microseconds.
const START: u64 = 1_735_689_600_000_000;

pub fn tick(after: u64) -> Tick
    requires { after < 100_000_000_000 }
    ensures { result.micros ≡ 1_735_689_600_000_000 + after }
{
    Tick {
        micros: START + after,
    }
}

pub fn node(after: u64, p: Vec3, v: Vec3) -> Node
    requires early { after < 100_000_000_000 }
    requires place { IsWithin MAX_COORDINATE p.x × IsWithin MAX_COORDINATE p.y × IsWithin MAX_COORDINATE p.z }
    requires rate { IsWithin MAX_RATE v.x × IsWithin MAX_RATE v.y × IsWithin MAX_RATE v.z }
    ensures { result.at.micros ≡ 1_735_689_600_000_000 + after }
{
    Node {
        at: tick(after),
        p,
        v,
    }
}

/// A covariance at the start of 2025 whose first three elements these are, and whose others are zero.
pub fn matrix(first: Decimal, second: Decimal, third: Decimal) -> Matrix
    requires first { IsReadable (number_of first) }
    requires second { IsReadable (number_of second) }
    requires third { IsReadable (number_of third) }
{
    let zero = Decimal::ZERO;
    let values = [
        first, second, third, zero, zero, zero, zero, zero, zero, zero, zero, zero, zero, zero,
        zero, zero, zero, zero, zero, zero, zero,
    ];
    Matrix {
        at: tick(0),
        values,
    }
}

/// A minute between two nodes, with these covariances.
fn segments(
    rt: &impl Abort,
    alloc: Global,
    from: Node,
    to: Node,
    matrices: Vec<Matrix>,
) -> Result<Segments, AllocError>
    requires from { from.at.micros ≡ 1_735_689_600_000_000 }
    requires to { to.at.micros ≡ 1_735_689_660_000_000 }
    ensures { IfOk result (λ segments. node_count segments ≡ 2) }
{
    assert!(rt; !leap_between(from.at, to.at));
    let segment = Segment {
        first: from.at,
        last: to.at,
        nodes: Nodes::new(vec![in alloc; from, to]?),
        matrices: Matrices::new(matrices),
    };
    Segments::new(alloc, vec![in alloc; segment]?)
}

/// From 225 km before the place `(7000, 0, 0)` to 225 km behind it, along y.
#[tactic(auto, unfolding(cj_track::specs::Labels::is_file_name, cj_track::specs::Labels::is_label))]
fn first(rt: &impl Abort, alloc: Global, matrices: Vec<Matrix>) -> Result<Track, AllocError>
    ensures frame { IfOk result (λ track. track.frame ≡ Frame.Eme2000) }
    ensures nodes { IfOk result (λ track. node_count track.segments ≡ 2) }
{
    let x = 7_000_000_000_000_000;
    let y = 225_000_000_000_000;
    let v = Vec3 {
        x: 0,
        y: 7_500_000_000_000,
        z: 0,
    };
    Ok(Track {
        file: Text::copy_of(alloc, b"a.oem")?,
        name: Text::copy_of(alloc, b"SAT A")?,
        id: Text::copy_of(alloc, b"2025-001A")?,
        frame: Frame::Eme2000,
        segments: segments(
            rt,
            alloc,
            node(0, Vec3 { x, y: -y, z: 0 }, v),
            node(60_000_000, Vec3 { x, y, z: 0 }, v),
            matrices,
        )?,
    })
}

/// From 225 km below the place `(7001, 0, 0)` to 225 km above it, along z.
#[tactic(auto, unfolding(cj_track::specs::Labels::is_file_name, cj_track::specs::Labels::is_label))]
fn second(rt: &impl Abort, alloc: Global, matrices: Vec<Matrix>) -> Result<Track, AllocError>
    ensures frame { IfOk result (λ track. track.frame ≡ Frame.Eme2000) }
    ensures nodes { IfOk result (λ track. node_count track.segments ≡ 2) }
{
    let x = 7_001_000_000_000_000;
    let z = 225_000_000_000_000;
    let v = Vec3 {
        x: 0,
        y: 0,
        z: 7_500_000_000_000,
    };
    Ok(Track {
        file: Text::copy_of(alloc, b"b.oem")?,
        name: Text::copy_of(alloc, b"SAT B")?,
        id: Text::copy_of(alloc, b"2025-002A")?,
        frame: Frame::Eme2000,
        segments: segments(
            rt,
            alloc,
            node(0, Vec3 { x, y: 0, z: -z }, v),
            node(60_000_000, Vec3 { x, y: 0, z }, v),
            matrices,
        )?,
    })
}

/// A minute of two tracks, by a threshold of 5 km.
fn problem(
    rt: &impl Abort,
    alloc: Global,
    a: Vec<Matrix>,
    b: Vec<Matrix>,
) -> Result<Problem, AllocError> {
    Ok(Problem {
        tracks: Tracks::new(vec![in alloc; first(rt, alloc, a)?, second(rt, alloc, b)?]?),
        window: Window {
            first: tick(0),
            last: tick(60_000_000),
        },
        threshold: 5_000_000_000_000,
        sizes: Sizes::new(vec![in alloc; 0, 0]?),
        primaries: Primaries::all(),
    })
}

pub fn stamp() -> Stamp<'static> {
    Stamp {
        created: tick(86_400_000_000),
        originator: b"CONJ",
        number: 1,
    }
}

#[test]
fn two_tracks_cross_at_one_kilometre(rt: HostRuntime) {
    let alloc = rt.alloc();
    let a = matrix(
        read_decimal(b"3.3313494e-04").expect(&rt, "no fault"),
        read_decimal(b"4.6189273e-04").expect(&rt, "no fault"),
        read_decimal(b"6.7824216e-04").expect(&rt, "no fault"),
    );
    let b = matrix(
        read_decimal(b"1").expect(&rt, "no fault"),
        Decimal::ZERO,
        Decimal::ZERO,
    );
    let problem = problem(
        &rt,
        alloc,
        vec![in alloc; a].expect(&rt, "no fault"),
        vec![in alloc; b].expect(&rt, "no fault"),
    )
    .expect(&rt, "no fault");
    let pair = Pair { a: 0, b: 1 };
    let tca = tick(30_000_000);
    let index = CovarianceIndex::new(alloc, &problem, &[true, true]).expect(&rt, "no fault");
    let text = index
        .message(alloc, pair, tca, 1_000_000_000_000, stamp())
        .expect(&rt, "no fault");
    let expected = crossing(alloc).expect(&rt, "no fault");
    assert_eq!(rt; text.as_deref(), Some(expected.as_slice()));
    assert!(rt; index.has_message(pair, tca));
}

#[test]
fn no_message_without_both_covariances(rt: HostRuntime) {
    let alloc = rt.alloc();
    let a = matrix(Decimal::ZERO, Decimal::ZERO, Decimal::ZERO);
    let problem = problem(
        &rt,
        alloc,
        vec![in alloc; a].expect(&rt, "no fault"),
        Vec::new(alloc),
    )
    .expect(&rt, "no fault");
    let pair = Pair { a: 0, b: 1 };
    let tca = tick(30_000_000);
    let index = CovarianceIndex::new(alloc, &problem, &[true, true]).expect(&rt, "no fault");
    let text = index
        .message(alloc, pair, tca, 1_000_000_000_000, stamp())
        .expect(&rt, "no fault");
    assert!(rt; text.is_none());
    assert!(rt; !index.has_message(pair, tca));
}
