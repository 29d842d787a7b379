//! Which covariance a message tells.
ghost use Rattle.std.specs.Prelude.{◌≡◌, ◌+◌, ◌<◌, ◌^◌, IfOk, length};
ghost use Rattle.cj_track.specs.Labels.{is_file_name, is_label};
ghost use Rattle.cj_track.specs.Segments.{node_count};

use crate::writing_messages::{matrix, node, stamp, tick};
use cj_base::{Decimal, Text, Tick, Window};
use cj_case::{Pair, Primaries, Problem, Sizes, Tracks};
use cj_cdm::{CovarianceIndex, read_cdm};
use cj_epoch::leap_between;
use cj_kvn::read_decimal;
use cj_track::{Frame, Matrices, Matrix, Node, Nodes, Segment, Segments, Track, Vec3};
use std::alloc::{AllocError, Global};
use std::panic::Expect;
use std::process::Abort;

const SECOND: u64 = 1_000_000;

/// A covariance so many microseconds after the start of 2025, with this first element.
fn covariance(rt: &impl Abort, after: u64, element: &[u8]) -> Matrix
    requires soon { after < 100_000_000_000 }
    requires short { length element.now < 2 ^ 32 }
{
    let first = read_decimal(element).expect(rt, "no fault");
    let Matrix { values, .. } = matrix(first, Decimal::ZERO, Decimal::ZERO);
    Matrix {
        at: tick(after),
        values,
    }
}

/// A node 7,000 km from the centre.
fn standing(after: u64) -> Node
    requires { after < 100_000_000_000 }
    ensures { result.at.micros ≡ 1_735_689_600_000_000 + after }
{
    let p = Vec3 {
        x: 7_000_000_000_000_000,
        y: 0,
        z: 0,
    };
    node(after, p, Vec3 { x: 0, y: 0, z: 0 })
}

/// A minute from a node to another with these covariances.
fn minute(
    rt: &impl Abort,
    alloc: Global,
    from: Node,
    to: Node,
    matrices: Vec<Matrix>,
) -> Result<Segment, AllocError>
    requires { from.at.micros + 60_000_000 ≡ to.at.micros }
    ensures first { IfOk result (λ segment. segment.first ≡ from.at) }
    ensures last { IfOk result (λ segment. segment.last ≡ to.at) }
    ensures nodes { IfOk result (λ segment. length segment.nodes ≡ 2) }
{
    assert!(rt; !leap_between(from.at, to.at));
    Ok(Segment {
        first: from.at,
        last: to.at,
        nodes: Nodes::new(vec![in alloc; from, to]?),
        matrices: Matrices::new(matrices),
    })
}

/// Two minutes, a segment each, with these covariances.
fn minutes(
    rt: &impl Abort,
    alloc: Global,
    earlier: Vec<Matrix>,
    later: Vec<Matrix>,
) -> Result<Segments, AllocError>
    ensures { IfOk result (λ segments. node_count segments ≡ 4) }
{
    let (start, middle, end) = (standing(0), standing(60 * SECOND), standing(120 * SECOND));
    let first = minute(rt, alloc, start, middle, earlier)?;
    let second = minute(rt, alloc, middle, end, later)?;
    Segments::new(alloc, vec![in alloc; first, second]?)
}

#[tactic(auto, unfolding(cj_track::specs::Labels::is_file_name, cj_track::specs::Labels::is_label))]
fn track(alloc: Global, segments: Segments) -> Result<Track, AllocError>
    ensures frame { IfOk result (λ track. track.frame ≡ Frame.Gcrf) }
    ensures nodes { IfOk result (λ track. track.segments ≡ segments) }
{
    Ok(Track {
        file: Text::copy_of(alloc, b"a.oem")?,
        name: Text::copy_of(alloc, b"SAT A")?,
        id: Text::copy_of(alloc, b"2025-001A")?,
        frame: Frame::Gcrf,
        segments,
    })
}

/// Two minutes of two objects that stand still.
fn problem(alloc: Global, a: Segments, b: Segments) -> Result<Problem, AllocError>
    requires first { node_count a ≡ 4 }
    requires second { node_count b ≡ 4 }
{
    Ok(Problem {
        tracks: Tracks::new(vec![in alloc; track(alloc, a)?, track(alloc, b)?]?),
        window: Window {
            first: tick(0),
            last: tick(120 * SECOND),
        },
        threshold: 5_000_000_000_000,
        sizes: Sizes::new(vec![in alloc; 0, 0]?),
        primaries: Primaries::all(),
    })
}

/// The epoch and the first element of the first object's covariance, as the message at a tick tells them.
fn told(alloc: Global, index: &CovarianceIndex<'_>, at: Tick) -> Option<(Tick, Decimal)> {
    let made = index
        .message(alloc, Pair { a: 0, b: 1 }, at, 0, stamp())
        .ok()?;
    let text = made?;
    if text.len() > u32::MAX as usize {
        return None;
    }
    let side = read_cdm(alloc, &text).ok()?.first;
    Some((side.epoch, side.values[0]))
}

/// The covariances of the first minute, and those of the second. Those of the first are neither in order nor at epochs of their own.
fn covariances(rt: &impl Abort, alloc: Global) -> Result<(Vec<Matrix>, Vec<Matrix>), AllocError> {
    let earlier = vec![in alloc;
        covariance(rt, 40 * SECOND, b"1"),
        covariance(rt, 10 * SECOND, b"2"),
        covariance(rt, 25 * SECOND, b"3"),
        covariance(rt, 10 * SECOND, b"4"),
        covariance(rt, 50 * SECOND, b"5"),
    ]?;
    let later = vec![in alloc;
        covariance(rt, 200 * SECOND, b"6"),
        covariance(rt, 61 * SECOND, b"7"),
        covariance(rt, 5 * SECOND, b"8"),
    ]?;
    Ok((earlier, later))
}

/// At these microseconds after the start of 2025 the covariance with this epoch and this first element is told.
const TOLD: [(u64, u64, &[u8]); 13] = [
    // before all: the first
    (0, 40_000_000, b"1"),
    (9_999_999, 40_000_000, b"1"),
    // the last of equals
    (10_000_000, 10_000_000, b"4"),
    (24_999_999, 10_000_000, b"4"),
    (25_000_000, 25_000_000, b"3"),
    (39_999_999, 25_000_000, b"3"),
    (40_000_000, 40_000_000, b"1"),
    (50_000_000, 50_000_000, b"5"),
    (59_999_999, 50_000_000, b"5"),
    // the second segment, which has the tick that both have
    (60_000_000, 5_000_000, b"8"),
    (60_999_999, 5_000_000, b"8"),
    (61_000_000, 61_000_000, b"7"),
    (120_000_000, 61_000_000, b"7"),
];

/// The first of these ticks at which another covariance is told, where there is one.
fn first_wrong(rt: &impl Abort, alloc: Global, index: &CovarianceIndex<'_>) -> Option<u64> {
    for (at, epoch, element) in TOLD {
        // In square metres.
        let value = read_decimal(element).expect(rt, "no fault").shift(6);
        if told(alloc, index, tick(at)) != Some((tick(epoch), value)) {
            return Some(at);
        }
    }
    None
}

#[test]
fn the_latest_that_is_not_after_is_told(rt: HostRuntime) {
    let alloc = rt.alloc();
    let (earlier, later) = covariances(&rt, alloc).expect(&rt, "no fault");
    let a = minutes(&rt, alloc, earlier, later).expect(&rt, "no fault");
    let one = vec![in alloc; covariance(&rt, 0, b"1")].expect(&rt, "no fault");
    let other = vec![in alloc; covariance(&rt, 0, b"1")].expect(&rt, "no fault");
    let b = minutes(&rt, alloc, one, other).expect(&rt, "no fault");
    let problem = problem(alloc, a, b).expect(&rt, "no fault");
    // Whether its covariances are in order or looked through.
    let both = CovarianceIndex::new(alloc, &problem, &[true, true]).expect(&rt, "no fault");
    assert_eq!(rt; first_wrong(&rt, alloc, &both), None);
    let one = CovarianceIndex::new(alloc, &problem, &[false, true]).expect(&rt, "no fault");
    assert_eq!(rt; first_wrong(&rt, alloc, &one), None);
    let none = CovarianceIndex::new(alloc, &problem, &[]).expect(&rt, "no fault");
    assert_eq!(rt; first_wrong(&rt, alloc, &none), None);
}
