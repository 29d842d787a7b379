//! Whole certificates of four objects at rest in a row, each 4 km behind the one before, for two minutes and a tick.
ghost use Rattle.std.specs.Prelude.{◌≡◌, ◌^◌, ◌<◌, ◌≤◌, pos, vec_len, IfOk};
ghost use Rattle.cj_case.specs.CaseLimits.{MAX_SIZE};
ghost use Rattle.cj_case.specs.Primaries.{marks_of};

use cj_case::{AxisBox, Kind, Pair, Primaries, Problem, Shell, Sizes, Tracks};
use cj_cert::{BoxLine, CellLine, Certificate, ShellLine, SizeOfLine};
use cj_checker::{Answer, CheckCause, check};
use cj_formats::CertVersion;
use cj_samples::{rest, seconds, tick, track_of};
use cj_track::Vec3;
use std::alloc::{AllocError, Global};
use std::panic::Expect;
use std::thread::Threads;

fn at(x: i64) -> Vec3
    ensures { result ≡ record { x = x; y = pos 0; z = pos 0 } }
{
    Vec3 { x, y: 0, z: 0 }
}

/// The problem with this threshold, objects of this size, and these primaries.
fn problem(
    alloc: Global,
    threshold: u64,
    size: u64,
    primaries: Primaries,
) -> Result<Problem, AllocError>
    requires least { 10 ^ 9 ≤ threshold }
    requires most { threshold ≤ 10 ^ 15 }
    requires small { size ≤ MAX_SIZE }
    requires marked { marks_of primaries 4 ≡ 4 }
{
    let a = track_of(alloc, rest(alloc, 0, 120, at(7_000_000_000_000_000))?)?;
    let b = track_of(alloc, rest(alloc, 0, 120, at(7_004_000_000_000_000))?)?;
    let c = track_of(alloc, rest(alloc, 0, 120, at(7_008_000_000_000_000))?)?;
    let d = track_of(alloc, rest(alloc, 0, 120, at(7_012_000_000_000_000))?)?;
    Ok(Problem {
        tracks: Tracks::new(vec![in alloc; a, b, c, d]?),
        window: seconds(0, 120),
        threshold,
        sizes: Sizes::new(vec![in alloc; size, size, size, size]?),
        primaries,
    })
}

fn shell_of(object: u32, radius: u64) -> ShellLine {
    let shell = Some(Shell {
        lo: radius,
        hi: radius,
    });
    ShellLine { object, shell }
}

/// A box of one place on the x axis for all three slots.
fn box_of(object: u32, x: i64) -> BoxLine {
    let here = Vec3 { x, y: 0, z: 0 };
    let area = AxisBox {
        least: here,
        most: here,
    };
    BoxLine {
        object,
        first: 0,
        last: 2,
        area,
    }
}

/// A pair in one of the three slots, the last of which has one tick.
fn near(a: u32, b: u32, slot: u32) -> CellLine
    requires ordered { a < b }
    requires slot { slot < 3 }
{
    let first = 60_000_000 * slot;
    CellLine {
        pair: Pair { a, b },
        first: tick(first),
        last: tick((first + 59_999_999).min(120_000_000)),
        kind: Kind::Near,
    }
}

/// The cells of neighbours, which are near.
fn neighbours(alloc: Global) -> Result<Vec<CellLine>, AllocError>
    ensures { IfOk result (λ cells. vec_len cells ≡ 9) }
{
    Ok(vec![in alloc;
        near(0, 1, 0),
        near(0, 1, 1),
        near(0, 1, 2),
        near(1, 2, 0),
        near(1, 2, 1),
        near(1, 2, 2),
        near(2, 3, 0),
        near(2, 3, 1),
        near(2, 3, 2),
    ]?)
}

/// What the checker says of a certificate with these cells, for a threshold between objects of this size, of which some are primaries.
/// Shells begin at line 9, boxes at line 13 and cells at line 17.
fn answer<R: Threads + Sync>(
    rt: &R,
    alloc: Global,
    threshold: u64,
    size: u64,
    primaries: Primaries,
    cells: Vec<CellLine>,
) -> Result<Answer, AllocError>
    requires least { 10 ^ 9 ≤ threshold }
    requires most { threshold ≤ 10 ^ 15 }
    requires small { size ≤ MAX_SIZE }
    requires marked { marks_of primaries 4 ≡ 4 }
    requires few { vec_len cells ≤ 100 }
{
    let cert = Certificate {
        version: CertVersion::Two,
        window: seconds(0, 120),
        threshold,
        objects: 4,
        sizes: vec![in alloc;
            SizeOfLine { object: 0, size },
            SizeOfLine { object: 1, size },
            SizeOfLine { object: 2, size },
            SizeOfLine { object: 3, size },
        ]?,
        shells: vec![in alloc;
            shell_of(0, 7_000_000_000_000_000),
            shell_of(1, 7_004_000_000_000_000),
            shell_of(2, 7_008_000_000_000_000),
            shell_of(3, 7_012_000_000_000_000),
        ]?,
        boxes: vec![in alloc;
            box_of(0, 7_000_000_000_000_000),
            box_of(1, 7_004_000_000_000_000),
            box_of(2, 7_008_000_000_000_000),
            box_of(3, 7_012_000_000_000_000),
        ]?,
        cells,
    };
    let problem = problem(alloc, threshold, size, primaries)?;
    check(rt, alloc, &problem, &cert, 3)
}

/// The same for a threshold of 5 km between objects without size: neighbours are near, and others are parted by their shells.
fn of_neighbours<R: Threads + Sync>(
    rt: &R,
    alloc: Global,
    cells: Vec<CellLine>,
) -> Result<Answer, AllocError>
    requires { vec_len cells ≤ 100 }
{
    answer(rt, alloc, 5_000_000_000_000, 0, Primaries::all(), cells)
}

fn refused(line: u32, cause: CheckCause) -> Answer {
    Answer::Refused { line, cause }
}

/// As they are, one left out, the last left out, one doubled, two exchanged.
#[test]
fn cells_stand_in_order_of_pair_and_slot(rt: HostRuntime) {
    let alloc = rt.alloc();
    assert_eq!(rt;
        of_neighbours(&rt, alloc, neighbours(alloc).expect(&rt, "no fault")).expect(
            &rt, "no fault"
        ),
        Answer::Accepted
    );
    let mut cells = neighbours(alloc).expect(&rt, "no fault");
    cells.remove(4);
    assert_eq!(rt;
        of_neighbours(&rt, alloc, cells).expect(&rt, "no fault"),
        refused(21, CheckCause::Untiled)
    );
    let mut cells = neighbours(alloc).expect(&rt, "no fault");
    cells.remove(8);
    assert_eq!(rt;
        of_neighbours(&rt, alloc, cells).expect(&rt, "no fault"),
        refused(25, CheckCause::Untiled)
    );
    let mut cells = neighbours(alloc).expect(&rt, "no fault");
    cells.insert(4, near(1, 2, 0)).expect(&rt, "no fault");
    assert_eq!(rt;
        of_neighbours(&rt, alloc, cells).expect(&rt, "no fault"),
        refused(21, CheckCause::Stranger)
    );
    let mut cells = neighbours(alloc).expect(&rt, "no fault");
    cells.swap(2, 3);
    assert_eq!(rt;
        of_neighbours(&rt, alloc, cells).expect(&rt, "no fault"),
        refused(19, CheckCause::Untiled)
    );
}

/// Neighbours are neither far nor in the band.
#[test]
fn a_kind_that_neighbours_do_not_show_is_refused(rt: HostRuntime) {
    let alloc = rt.alloc();
    let mut cells = neighbours(alloc).expect(&rt, "no fault");
    cells[5].kind = Kind::Far;
    assert_eq!(rt;
        of_neighbours(&rt, alloc, cells).expect(&rt, "no fault"),
        refused(22, CheckCause::NotFar)
    );
    let mut cells = neighbours(alloc).expect(&rt, "no fault");
    cells[5].kind = Kind::Undecided;
    assert_eq!(rt;
        of_neighbours(&rt, alloc, cells).expect(&rt, "no fault"),
        refused(22, CheckCause::NotBand)
    );
}

/// With a threshold of 6 km between objects of a size of 1 km those 8 km apart touch exactly.
#[test]
fn sizes_bring_the_pairs_that_just_touch(rt: HostRuntime) {
    let alloc = rt.alloc();
    let (threshold, size) = (6_000_000_000_000, 1_000_000_000_000);
    let cells = neighbours(alloc).expect(&rt, "no fault");
    assert_eq!(rt;
        answer(&rt, alloc, threshold, size, Primaries::all(), cells).expect(&rt, "no fault"),
        refused(20, CheckCause::Untiled)
    );
    let cells = vec![in alloc;
        near(0, 1, 0),
        near(0, 1, 1),
        near(0, 1, 2),
        near(0, 2, 0),
        near(0, 2, 1),
        near(0, 2, 2),
        near(1, 2, 0),
        near(1, 2, 1),
        near(1, 2, 2),
        near(1, 3, 0),
        near(1, 3, 1),
        near(1, 3, 2),
        near(2, 3, 0),
        near(2, 3, 1),
        near(2, 3, 2),
    ]
    .expect(&rt, "no fault");
    assert_eq!(rt;
        answer(&rt, alloc, threshold, size, Primaries::all(), cells).expect(&rt, "no fault"),
        Answer::Accepted
    );
}

/// The third object alone is a primary.
fn third(alloc: Global) -> Result<Primaries, AllocError>
    ensures { IfOk result (λ primaries. marks_of primaries 4 ≡ 4) }
{
    Ok(Primaries::marked(vec![in alloc; false, false, true, false]?))
}

/// The pair of the first two is not looked at then.
#[test]
fn cells_of_a_pair_without_a_primary_are_strangers(rt: HostRuntime) {
    let alloc = rt.alloc();
    let threshold = 5_000_000_000_000;
    let cells = neighbours(alloc).expect(&rt, "no fault");
    let primaries = third(alloc).expect(&rt, "no fault");
    assert_eq!(rt;
        answer(&rt, alloc, threshold, 0, primaries, cells).expect(&rt, "no fault"),
        refused(17, CheckCause::Stranger)
    );
    let cells = vec![in alloc;
        near(1, 2, 0),
        near(1, 2, 1),
        near(1, 2, 2),
        near(2, 3, 0),
        near(2, 3, 1),
        near(2, 3, 2),
    ]
    .expect(&rt, "no fault");
    let primaries = third(alloc).expect(&rt, "no fault");
    assert_eq!(rt;
        answer(&rt, alloc, threshold, 0, primaries, cells).expect(&rt, "no fault"),
        Answer::Accepted
    );
}
