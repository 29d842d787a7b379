//! The pieces of a track, and its runs of ticks.
ghost use Rattle.std.specs.Prelude.{◌≡◌, ◌+◌, ◌*◌, ◌<◌, ◌≤◌, length, IfOk};
ghost use Rattle.cj_track.specs.Tracks.{plain_track};
ghost use Rattle.cj_hermite.specs.Pieces.{pieces_of};

use cj_base::{Text, Tick, Window};
use cj_epoch::leap_between;
use cj_hermite::{Hint, cut, piece, piece_at, run_from, segment_of};
use cj_track::{Frame, Matrices, Node, Nodes, Segment, Segments, Track, Vec3};
use std::alloc::{AllocError, Global};
use std::panic::Expect;
use std::process::Abort;

/// The tick of this millisecond of 2025.
fn at(millis: u64) -> Tick
    requires { millis ≤ 1000000 }
    ensures { result.micros ≡ 1735689600000000 + millis * 1000 }
{
    Tick {
        micros: 1_735_689_600_000_000 + millis * 1000,
    }
}

fn node(millis: u64) -> Node
    requires { millis ≤ 1000000 }
    ensures { result.at.micros ≡ 1735689600000000 + millis * 1000 }
{
    let rest = Vec3 { x: 0, y: 0, z: 0 };
    Node {
        at: at(millis),
        p: rest,
        v: rest,
    }
}

/// A segment with two nodes, with no leap second between.
fn short(
    rt: &impl Abort,
    alloc: Global,
    first: u64,
    last: u64,
    a: u64,
    b: u64,
) -> Result<Segment, AllocError>
    requires rises { a < b }
    requires near { b ≤ 1000000 }
    requires some { first ≤ last }
    requires from { a ≤ first }
    requires to { last ≤ b }
    ensures first { IfOk result (λ s. s.first.micros ≡ 1735689600000000 + first * 1000) }
    ensures last { IfOk result (λ s. s.last.micros ≡ 1735689600000000 + last * 1000) }
    ensures count { IfOk result (λ s. length s.nodes ≡ 2) }
{
    assert!(rt; !leap_between(at(a), at(b)));
    Ok(Segment {
        first: at(first),
        last: at(last),
        nodes: Nodes::new(vec![in alloc; node(a), node(b)]?),
        matrices: Matrices::new(Vec::new(alloc)),
    })
}

/// A segment with three nodes, with no leap second between.
fn long(
    rt: &impl Abort,
    alloc: Global,
    first: u64,
    last: u64,
    a: u64,
    b: u64,
    c: u64,
) -> Result<Segment, AllocError>
    requires rises { a < b }
    requires goes_on { b < c }
    requires near { c ≤ 1000000 }
    requires some { first ≤ last }
    requires from { a ≤ first }
    requires to { last ≤ c }
    ensures first { IfOk result (λ s. s.first.micros ≡ 1735689600000000 + first * 1000) }
    ensures last { IfOk result (λ s. s.last.micros ≡ 1735689600000000 + last * 1000) }
    ensures count { IfOk result (λ s. length s.nodes ≡ 3) }
{
    assert!(rt; !leap_between(at(a), at(b)));
    assert!(rt; !leap_between(at(b), at(c)));
    Ok(Segment {
        first: at(first),
        last: at(last),
        nodes: Nodes::new(vec![in alloc; node(a), node(b), node(c)]?),
        matrices: Matrices::new(Vec::new(alloc)),
    })
}

#[tactic(auto, unfolding(cj_track::specs::Labels::is_file_name, cj_track::specs::Labels::is_label))]
fn named(alloc: Global, segments: Segments) -> Result<Track, AllocError>
    ensures { IfOk result (λ track. track.segments ≡ segments) }
{
    Ok(Track {
        file: Text::copy_of(alloc, b"a.oem")?,
        name: Text::copy_of(alloc, b"SAT A")?,
        id: Text::copy_of(alloc, b"2025-001A")?,
        frame: Frame::Eme2000,
        segments,
    })
}

/// Three segments share the tick at 30 s, and the fourth begins after a gap.
fn track(rt: &impl Abort, alloc: Global) -> Result<Track, AllocError>
    ensures { IfOk result (λ track. length (pieces_of (plain_track track)) ≡ 6) }
{
    let segments = vec![in alloc;
        short(rt, alloc, 0, 30_000, 0, 30_000)?,
        short(rt, alloc, 30_000, 30_000, 20_000, 40_000)?,
        long(rt, alloc, 30_000, 60_000, 30_000, 45_000, 60_000)?,
        long(rt, alloc, 90_000, 100_000, 80_000, 95_000, 110_000)?,
    ]?;
    named(alloc, Segments::new(alloc, segments)?)
}

/// A segment of two pieces that is useable from the middle of its first piece on.
fn useable_late(rt: &impl Abort, alloc: Global) -> Result<Track, AllocError> {
    let segments = vec![in alloc; long(rt, alloc, 30_000, 120_000, 0, 60_000, 120_000)?]?;
    named(alloc, Segments::new(alloc, segments)?)
}

/// The piece at this tick, after so many microseconds.
fn piece_after(track: &Track, micros: u32) -> Option<u32> {
    piece_at(
        track,
        Tick::nearest(1_735_689_600_000_000 + u64::from(micros)),
    )
}

#[test]
fn a_segment_has_no_piece_before_it_is_useable(rt: HostRuntime) {
    let track = useable_late(&rt, rt.alloc()).expect(&rt, "no fault");
    let pieces = [
        (0, None),
        (29_999_999, None),
        (30_000_000, Some(0)),
        (59_999_999, Some(0)),
        (60_000_000, Some(1)),
        (120_000_000, Some(1)),
        (120_000_001, None),
    ];
    for (micros, index) in pieces {
        assert_eq!(rt; piece_after(&track, micros), index, "after {micros}");
    }
}

#[test]
fn a_shared_tick_belongs_to_the_last_segment(rt: HostRuntime) {
    let track = track(&rt, rt.alloc()).expect(&rt, "no fault");
    let pieces = [
        (0, Some(0)),
        (29_999, Some(0)),
        (30_000, Some(2)),
        (30_001, Some(2)),
        (44_999, Some(2)),
        (45_000, Some(3)),
        (60_000, Some(3)),
    ];
    for (millis, index) in pieces {
        assert_eq!(rt; piece_at(&track, at(millis)), index, "at {millis}");
    }
}

#[test]
fn there_is_no_state_in_a_gap(rt: HostRuntime) {
    let track = track(&rt, rt.alloc()).expect(&rt, "no fault");
    let pieces = [
        (60_001, None),
        (89_999, None),
        (90_000, Some(4)),
        (95_000, Some(5)),
        (100_000, Some(5)),
        (100_001, None),
    ];
    for (millis, index) in pieces {
        assert_eq!(rt; piece_at(&track, at(millis)), index, "at {millis}");
    }
}

#[test]
fn pieces_are_numbered_through_all_segments(rt: HostRuntime) {
    let track = track(&rt, rt.alloc()).expect(&rt, "no fault");
    let nodes = [
        (0, 30_000, 0),
        (20_000, 40_000, 1),
        (30_000, 45_000, 2),
        (45_000, 60_000, 2),
        (80_000, 95_000, 3),
        (95_000, 110_000, 3),
    ];
    for (index, (from, to, segment)) in nodes.iter().enumerate() {
        let piece = piece(&track, index as u32);
        assert_eq!(rt; (piece.t0, piece.t1), (at(*from), at(*to)));
        assert_eq!(rt; segment_of(&track, index as u32), *segment);
    }
}

#[test]
fn a_cut_leaves_what_belongs_to_a_later_piece(rt: HostRuntime) {
    let track = track(&rt, rt.alloc()).expect(&rt, "no fault");
    let all = Window {
        first: at(0),
        last: at(200_000),
    };
    let before = |millis: u64| Tick::nearest(1_735_689_600_000_000 + millis * 1000 - 1);
    assert_eq!(rt;
        cut(&track, 0, all),
        Some(Window {
            first: at(0),
            last: before(30_000)
        })
    );
    assert_eq!(rt; cut(&track, 1, all), None);
    assert_eq!(rt;
        cut(&track, 2, all),
        Some(Window {
            first: at(30_000),
            last: before(45_000)
        })
    );
    assert_eq!(rt;
        cut(&track, 3, all),
        Some(Window {
            first: at(45_000),
            last: at(60_000)
        })
    );
    assert_eq!(rt;
        cut(&track, 4, all),
        Some(Window {
            first: at(90_000),
            last: before(95_000)
        })
    );
    assert_eq!(rt;
        cut(&track, 5, all),
        Some(Window {
            first: at(95_000),
            last: at(100_000)
        })
    );
    let late = Window {
        first: at(50_000),
        last: at(200_000),
    };
    assert_eq!(rt;
        cut(&track, 3, late),
        Some(Window {
            first: at(50_000),
            last: at(60_000)
        })
    );
    assert_eq!(rt; cut(&track, 2, late), None);
}

#[test]
fn a_hint_changes_no_run(rt: HostRuntime) {
    let track = track(&rt, rt.alloc()).expect(&rt, "no fault");
    let before = |millis: u64| Tick::nearest(1_735_689_600_000_000 + millis * 1000 - 1);
    let runs = [
        (0, Some((at(0), before(30_000), 0))),
        (30_000, Some((at(30_000), before(45_000), 2))),
        (50_000, Some((at(50_000), at(60_000), 3))),
        (60_001, Some((at(90_000), before(95_000), 4))),
        (95_000, Some((at(95_000), at(100_000), 5))),
        (100_001, None),
    ];
    let hints = [
        (0, 0),
        (0, 1),
        (1, 0),
        (2, 0),
        (2, 1),
        (3, 0),
        (3, 9),
        (4, 0),
        (u32::MAX, u32::MAX),
    ];
    for (from, expected) in runs {
        for (segment, node) in hints {
            let mut hint = Hint { segment, node };
            let run = run_from(&track, at(from), at(200_000), &mut hint);
            let told = run.map(|run| (run.ticks.first, run.ticks.last, run.index));
            assert_eq!(rt; told, expected, "from {from} at {segment}, {node}");
        }
    }
}
