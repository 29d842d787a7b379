//! Whole certificates of eight objects at rest in a row along y, each 20 km behind the one before, within one slot. They have 28 pairs,
//! which are far more than the lines of cells here: the first failure is found without all of them.
ghost use Rattle.std.specs.Prelude.{◌≡◌, ◌*◌, ◌^◌, ◌<◌, ◌≤◌, ◌≤ℤ◌, pos, length};
ghost use Rattle.cj_track.specs.declared.frame.Frame.TheVariants.{Eme2000};
ghost use Rattle.cj_track.specs.Segments.{node_count};

use cj_case::{AxisBox, Kind, Pair, Primaries, Problem, Shell, Sizes, Tracks};
use cj_cert::{BoxLine, CellLine, Certificate, ShellLine, SizeOfLine};
use cj_checker::{Answer, CheckCause, check};
use cj_formats::CertVersion;
use cj_samples::{rest, seconds, tick, track_of};
use cj_track::{Track, Vec3};
use std::alloc::Global;
use std::panic::Expect;
use std::process::Abort;
use std::thread::Threads;

/// When the objects have a state: all of them in the whole slot, or each in a second of its own.
#[derive(Clone, Copy)]
enum States {
    Together,
    InTurn,
}

/// The listed boxes: each is all of space; or each is a line along x; or so, but that of the fourth object ends at that of the fifth.
#[derive(Clone, Copy)]
enum Boxes {
    All,
    Lines,
    Wide,
}

/// Where boxes end that reach far.
const FAR: i64 = 1_000_000_000_000_000_000;

/// Where an object is along y.
fn along_y(object: u8) -> i64
    requires { object < 8 }
    ensures { result ≡ pos (object * 20_000_000_000_000) }
{
    i64::from(object) * 20_000_000_000_000
}

fn track(rt: &impl Abort, alloc: Global, states: States, object: u8) -> Track
    requires { object < 8 }
    ensures frame { result.frame ≡ Eme2000 }
    ensures nodes { node_count result.segments ≡ 2 }
{
    let place = Vec3 {
        x: 7_000_000_000_000_000,
        y: along_y(object),
        z: 0,
    };
    let (first, last) = match states {
        States::Together => (0, 59),
        States::InTurn => (5 * object, 5 * object + 1),
    };
    let segment = rest(alloc, first, last, place).expect(rt, "no fault");
    track_of(alloc, segment).expect(rt, "no fault")
}

fn problem(rt: &impl Abort, alloc: Global, states: States, threshold: u64) -> Problem
    requires least { 10 ^ 9 ≤ threshold }
    requires most { threshold ≤ 10 ^ 15 }
{
    let tracks = vec![in alloc;
        track(rt, alloc, states, 0),
        track(rt, alloc, states, 1),
        track(rt, alloc, states, 2),
        track(rt, alloc, states, 3),
        track(rt, alloc, states, 4),
        track(rt, alloc, states, 5),
        track(rt, alloc, states, 6),
        track(rt, alloc, states, 7),
    ]
    .expect(rt, "no fault");
    let sizes = vec![in alloc; 0, 0, 0, 0, 0, 0, 0, 0].expect(rt, "no fault");
    Problem {
        tracks: Tracks::new(tracks),
        window: seconds(0, 59),
        threshold,
        sizes: Sizes::new(sizes),
        primaries: Primaries::all(),
    }
}

fn size_of(object: u32) -> SizeOfLine {
    SizeOfLine { object, size: 0 }
}

/// A shell that parts no pair.
fn shell_of(object: u32) -> ShellLine {
    let shell = Some(Shell {
        lo: 0,
        hi: 1_000_000_000_000_000_000,
    });
    ShellLine { object, shell }
}

/// A box that is long along x, and reaches along y from one place to another.
fn line(low: i64, high: i64) -> AxisBox
    requires { low ≤ℤ high }
{
    AxisBox {
        least: Vec3 {
            x: -FAR,
            y: low,
            z: 0,
        },
        most: Vec3 {
            x: FAR,
            y: high,
            z: 0,
        },
    }
}

/// All of space.
fn space() -> AxisBox {
    AxisBox {
        least: Vec3 {
            x: -FAR,
            y: -FAR,
            z: -FAR,
        },
        most: Vec3 {
            x: FAR,
            y: FAR,
            z: FAR,
        },
    }
}

fn area(boxes: Boxes, object: u8) -> AxisBox
    requires { object < 8 }
{
    let y = along_y(object);
    match boxes {
        Boxes::All => space(),
        Boxes::Wide if object == 3 => line(y, along_y(4)),
        _ => line(y, y),
    }
}

fn box_of(boxes: Boxes, object: u8) -> BoxLine
    requires { object < 8 }
{
    BoxLine {
        object: u32::from(object),
        first: 0,
        last: 0,
        area: area(boxes, object),
    }
}

/// A pair in the slot.
fn cell(a: u32, b: u32, kind: Kind) -> CellLine
    requires { a < b }
{
    CellLine {
        pair: Pair { a, b },
        first: tick(0),
        last: tick(59_000_000),
        kind,
    }
}

/// What is tried: when the objects have a state, the threshold in nm, and the boxes.
#[derive(Clone, Copy)]
struct Scene {
    states: States,
    threshold: u64,
    boxes: Boxes,
    ghost least: { 10 ^ 9 ≤ threshold },
    ghost most: { threshold ≤ 10 ^ 15 },
}

/// What the checker says of a certificate with these cells. Sizes begin at line 5, shells at line 13, boxes at line 21 and cells at
/// line 29.
fn answer<R: Abort + Threads + Sync>(
    rt: &R,
    alloc: Global,
    scene: Scene,
    cells: &[CellLine],
) -> Answer
    requires { length cells.now ≤ 100 }
{
    let Scene {
        states,
        threshold,
        boxes,
    } = scene;
    let mut list = Vec::new(alloc);
    list.extend_from_slice(cells).expect(rt, "no fault");
    let cert = Certificate {
        version: CertVersion::Two,
        window: seconds(0, 59),
        threshold,
        objects: 8,
        sizes: vec![in alloc;
            size_of(0),
            size_of(1),
            size_of(2),
            size_of(3),
            size_of(4),
            size_of(5),
            size_of(6),
            size_of(7),
        ]
        .expect(rt, "no fault"),
        shells: vec![in alloc;
            shell_of(0),
            shell_of(1),
            shell_of(2),
            shell_of(3),
            shell_of(4),
            shell_of(5),
            shell_of(6),
            shell_of(7),
        ]
        .expect(rt, "no fault"),
        boxes: vec![in alloc;
            box_of(boxes, 0),
            box_of(boxes, 1),
            box_of(boxes, 2),
            box_of(boxes, 3),
            box_of(boxes, 4),
            box_of(boxes, 5),
            box_of(boxes, 6),
            box_of(boxes, 7),
        ]
        .expect(rt, "no fault"),
        cells: list,
    };
    check(rt, alloc, &problem(rt, alloc, states, threshold), &cert, 3).expect(rt, "no fault")
}

fn refused(line: u32, cause: CheckCause) -> Answer {
    Answer::Refused { line, cause }
}

/// None at all, one that is not as its kind says, one twice, one left out, and the pairs of one object alone. Each pair is a candidate, and
/// is near: the threshold is 200 km.
#[test]
fn the_first_failure_is_found_where_each_pair_is_a_candidate(rt: HostRuntime) {
    let alloc = rt.alloc();
    let scene = Scene {
        states: States::Together,
        threshold: 200_000_000_000_000,
        boxes: Boxes::All,
    };
    let near = [
        cell(0, 1, Kind::Near),
        cell(0, 2, Kind::Near),
        cell(0, 3, Kind::Near),
        cell(0, 4, Kind::Near),
        cell(0, 5, Kind::Near),
        cell(0, 6, Kind::Near),
        cell(0, 7, Kind::Near),
        cell(1, 2, Kind::Near),
    ];
    let [first, second, _, fourth, _, _, _, _] = near;
    assert_eq!(rt;
        answer(&rt, alloc, scene, &[]),
        refused(29, CheckCause::Untiled)
    );
    let far = cell(0, 1, Kind::Far);
    assert_eq!(rt;
        answer(&rt, alloc, scene, &[far]),
        refused(29, CheckCause::NotFar)
    );
    assert_eq!(rt;
        answer(&rt, alloc, scene, &[first, first]),
        refused(30, CheckCause::Stranger)
    );
    assert_eq!(rt;
        answer(&rt, alloc, scene, &[first, second, fourth]),
        refused(31, CheckCause::Untiled)
    );
    assert_eq!(rt;
        answer(&rt, alloc, scene, &near),
        refused(37, CheckCause::Untiled)
    );
}

/// Objects that have their states at other ticks want no cell, though each pair is a candidate.
#[test]
fn pairs_without_common_ticks_want_no_cell(rt: HostRuntime) {
    let alloc = rt.alloc();
    let scene = Scene {
        states: States::InTurn,
        threshold: 5_000_000_000_000,
        boxes: Boxes::All,
    };
    assert_eq!(rt; answer(&rt, alloc, scene, &[]), Answer::Accepted);
    let cell = cell(6, 7, Kind::Far);
    assert_eq!(rt;
        answer(&rt, alloc, scene, &[cell]),
        refused(29, CheckCause::Stranger)
    );
}

/// Boxes that meet along x alone touch not: no pair is a candidate, or but the one whose boxes meet along y too.
#[test]
fn boxes_that_meet_along_one_axis_do_not_touch(rt: HostRuntime) {
    let alloc = rt.alloc();
    let (states, threshold) = (States::Together, 5_000_000_000_000);
    let lines = Scene {
        states,
        threshold,
        boxes: Boxes::Lines,
    };
    assert_eq!(rt; answer(&rt, alloc, lines, &[]), Answer::Accepted);
    let wide = Scene {
        states,
        threshold,
        boxes: Boxes::Wide,
    };
    assert_eq!(rt;
        answer(&rt, alloc, wide, &[]),
        refused(29, CheckCause::Untiled)
    );
    let cell = cell(3, 4, Kind::Far);
    assert_eq!(rt; answer(&rt, alloc, wide, &[cell]), Answer::Accepted);
}
