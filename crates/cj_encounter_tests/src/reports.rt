ghost use Rattle.std.specs.Prelude.{◌≡◌, ◌+◌, ◌<◌, ◌≤◌, true, IfOk};
ghost use Rattle.cj_track.specs.Labels.{is_file_name};
ghost use Rattle.cj_track.specs.Segments.{node_count};

use cj_base::{Text, Tick, Window};
use cj_case::{Cell, Closest, Kind, Leaf, Pair, Primaries, Problem, Sizes, Tracks};
use cj_epoch::leap_between;
use cj_meet::encounters;
use cj_report::{Tells, changed_summary_text, changed_text, push_uncovered, report_text};
use cj_track::{Frame, Matrices, Node, Nodes, Segment, Segments, Track, Vec3};
use std::alloc::{AllocError, Global};
use std::panic::Expect;
use std::process::Abort;

/// 2025-01-01T00:00:00 in microseconds.
const START: u64 = 1_735_689_600_000_000;

const REPORT: &[u8] = b"CONJ-REPORT 1
WINDOW 2025-01-01T00:00:29.500000 2025-01-01T00:00:30.499999
THRESHOLD 5000000000000
OBJECT 1
FILE a.oem
ID 2025-001A
NAME SAT A
OBJECT 2
FILE b.oem
ID 2025-001A
NAME SAT A
ENCOUNTER 1 1 2 NEAR 2025-01-01T00:00:30.000000 1000000000000 NOCOV
SPAN NEAR 2025-01-01T00:00:29.538120 2025-01-01T00:00:30.461880
END
";

const SIZED_REPORT: &[u8] = b"CONJ-REPORT 1
WINDOW 2025-01-01T00:00:29.500000 2025-01-01T00:00:30.499999
THRESHOLD 5000000000000
OBJECT 1
FILE a.oem
ID 2025-001A
NAME SAT A
SIZE 1500000000
OBJECT 2
FILE b.oem
ID 2025-001A
NAME SAT A
SIZE 0
ENCOUNTER 1 1 2 NEAR 2025-01-01T00:00:30.000000 1000000000000 CDM
SPAN NEAR 2025-01-01T00:00:29.538120 2025-01-01T00:00:30.461880
END
";

/// The encounters alone.
const NO_MORE: Tells = Tells {
    sizes: false,
    coverage: false,
};

fn tick(after: u64) -> Tick
    requires { after < 100_000_000 }
    ensures { result.micros ≡ 1_735_689_600_000_000 + after }
{
    Tick {
        micros: START + after,
    }
}

fn node(at: Tick) -> Node
    ensures { result.at ≡ at }
{
    let zero = Vec3 { x: 0, y: 0, z: 0 };
    Node {
        at,
        p: zero,
        v: zero,
    }
}

/// A minute at rest.
fn segments(rt: &impl Abort, alloc: Global) -> Result<Segments, AllocError>
    ensures { IfOk result (λ segments. node_count segments ≡ 2) }
{
    assert!(rt; !leap_between(tick(0), tick(60_000_000)));
    let nodes = vec![in alloc; node(tick(0)), node(tick(60_000_000))]?;
    let segment = Segment {
        first: tick(0),
        last: tick(60_000_000),
        nodes: Nodes::new(nodes),
        matrices: Matrices::new(Vec::new(alloc)),
    };
    Segments::new(alloc, vec![in alloc; segment]?)
}

#[tactic(auto, unfolding(cj_track::specs::Labels::is_label))]
fn track_of(alloc: Global, file: Text, segments: Segments) -> Result<Track, AllocError>
    requires { is_file_name file ≡ true }
    ensures frame { IfOk result (λ track. track.frame ≡ Frame.Eme2000) }
    ensures segments { IfOk result (λ track. track.segments ≡ segments) }
{
    Ok(Track {
        file,
        name: Text::copy_of(alloc, b"SAT A")?,
        id: Text::copy_of(alloc, b"2025-001A")?,
        frame: Frame::Eme2000,
        segments,
    })
}

/// A second of two tracks, by a threshold of 5 km.
#[tactic(auto, unfolding(cj_track::specs::Labels::is_file_name))]
fn problem(rt: &impl Abort, alloc: Global) -> Result<Problem, AllocError> {
    let a = track_of(alloc, Text::copy_of(alloc, b"a.oem")?, segments(rt, alloc)?)?;
    let b = track_of(alloc, Text::copy_of(alloc, b"b.oem")?, segments(rt, alloc)?)?;
    Ok(Problem {
        tracks: Tracks::new(vec![in alloc; a, b]?),
        window: Window {
            first: tick(29_500_000),
            last: tick(30_499_999),
        },
        threshold: 5_000_000_000_000,
        sizes: Sizes::new(vec![in alloc; 1_500_000_000, 0]?),
        primaries: Primaries::all(),
    })
}

fn leaf(first: u64, last: u64, kind: Kind) -> Leaf
    requires order { first ≤ last }
    requires early { last < 100_000_000 }
    ensures objects { (result.cell.pair.a ≡ 0) × (result.cell.pair.b ≡ 1) }
    ensures first { result.cell.first.micros ≡ 1_735_689_600_000_000 + first }
    ensures last { result.cell.last.micros ≡ 1_735_689_600_000_000 + last }
    ensures kind { result.kind ≡ kind }
{
    Leaf {
        cell: Cell {
            pair: Pair { a: 0, b: 1 },
            root: 0,
            first: tick(first),
            last: tick(last),
        },
        kind,
    }
}

/// What is told of the crossing.
#[derive(Clone, Copy)]
enum Told {
    Whole,
    /// With sizes, and with a message.
    Sized,
    /// As a report of changed pairs alone.
    Changed,
}

/// What is told of two tracks that cross at one kilometre.
fn told_of_crossing(rt: &impl Abort, alloc: Global, told: Told) -> Vec<u8> {
    let problem = problem(rt, alloc).expect(rt, "no fault");
    let leaves = [
        leaf(29_500_000, 29_538_119, Kind::Far),
        leaf(29_538_120, 29_999_999, Kind::Near),
        leaf(30_000_000, 30_461_880, Kind::Near),
        leaf(30_461_881, 30_499_999, Kind::Far),
    ];
    let found = encounters(alloc, &leaves).expect(rt, "no fault");
    assert!(rt; found.len() == 1);
    let approaches = [Closest {
        tick: tick(30_000_000),
        high: 1_000_000_000_000,
    }];
    let text = match told {
        Told::Whole => report_text(
            alloc,
            &problem,
            NO_MORE,
            &leaves,
            &found,
            &approaches,
            &[false],
        ),
        Told::Sized => report_text(
            alloc,
            &problem,
            Tells {
                sizes: true,
                coverage: false,
            },
            &leaves,
            &found,
            &approaches,
            &[true],
        ),
        Told::Changed => changed_text(
            alloc,
            &problem,
            NO_MORE,
            &leaves,
            &found,
            &approaches,
            &[false],
        ),
    };
    text.expect(rt, "no fault")
}

#[test]
fn two_tracks_cross_at_one_kilometre(rt: HostRuntime) {
    let text = told_of_crossing(&rt, rt.alloc(), Told::Whole);
    assert_eq!(rt; text.as_slice(), REPORT);
    let text = told_of_crossing(&rt, rt.alloc(), Told::Sized);
    assert_eq!(rt; text.as_slice(), SIZED_REPORT);
}

#[test]
fn changed_pairs_have_a_title_of_their_own(rt: HostRuntime) {
    let text = told_of_crossing(&rt, rt.alloc(), Told::Changed);
    let behind = text.strip_prefix(b"CONJ-CHANGED 1\n".as_slice());
    assert!(rt; behind.is_some());
    assert_eq!(rt; behind, REPORT.strip_prefix(b"CONJ-REPORT 1\n".as_slice()));
}

#[test]
fn the_summary_of_changed_pairs_has_three_lines(rt: HostRuntime) {
    let text = changed_summary_text(rt.alloc(), 3, 2, 1).expect(&rt, "no fault");
    assert_eq!(rt;
        text.as_slice(),
        b"OBJECTS 3\nENCOUNTERS 2\nKEPT 1\n".as_slice()
    );
}

#[test]
fn the_last_line_of_a_summary_counts_objects_that_leave_ticks_out(rt: HostRuntime) {
    let mut text = changed_summary_text(rt.alloc(), 3, 2, 1).expect(&rt, "no fault");
    push_uncovered(&mut text, 2).expect(&rt, "no fault");
    assert_eq!(rt;
        text.as_slice(),
        b"OBJECTS 3\nENCOUNTERS 2\nKEPT 1\nUNCOVERED 2\n".as_slice()
    );
}
