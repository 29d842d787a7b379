//! Whole certificates of two objects at rest exactly at the threshold, for a minute and a tick.
ghost use Rattle.std.specs.Prelude.{◌≤◌, length};

use cj_case::{AxisBox, Kind, Pair, Shell};
use cj_cert::{BoxLine, CellLine, Certificate, ShellLine, SizeOfLine};
use cj_checker::{Answer, CheckCause, check};
use cj_formats::CertVersion;
use cj_samples::{resting, seconds, tick};
use cj_track::Vec3;
use std::alloc::{AllocError, Global};
use std::panic::Expect;
use std::thread::Threads;

fn shell_of(object: u32, radius: u64) -> ShellLine {
    let shell = Some(Shell {
        lo: radius,
        hi: radius,
    });
    ShellLine { object, shell }
}

/// The place on the x axis as a box.
fn place(x: i64) -> AxisBox {
    let here = Vec3 { x, y: 0, z: 0 };
    AxisBox {
        least: here,
        most: here,
    }
}

/// A cell of both objects, by microseconds.
fn cell(first: u32, last: u32, kind: Kind) -> CellLine
    requires { first ≤ last }
{
    CellLine {
        pair: Pair { a: 0, b: 1 },
        first: tick(first),
        last: tick(last),
        kind,
    }
}

/// What the checker says of a certificate of version 1 with these cells. They begin at line 11.
fn answer<R: Threads + Sync>(
    rt: &R,
    alloc: Global,
    cells: &[CellLine],
) -> Result<Answer, AllocError>
    requires { length cells.now ≤ 100 }
{
    let (a, b) = (place(7_000_000_000_000_000), place(7_005_000_000_000_000));
    let mut list = Vec::new(alloc);
    list.extend_from_slice(cells)?;
    let cert = Certificate {
        version: CertVersion::One,
        window: seconds(0, 60),
        threshold: 5_000_000_000_000,
        objects: 2,
        sizes: Vec::new(alloc),
        shells: vec![in alloc;
            shell_of(0, 7_000_000_000_000_000),
            shell_of(1, 7_005_000_000_000_000),
        ]?,
        boxes: vec![in alloc;
            BoxLine {
                object: 0,
                first: 0,
                last: 0,
                area: a
            },
            BoxLine {
                object: 0,
                first: 1,
                last: 1,
                area: a
            },
            BoxLine {
                object: 1,
                first: 0,
                last: 0,
                area: b
            },
            BoxLine {
                object: 1,
                first: 1,
                last: 1,
                area: b
            },
        ]?,
        cells: list,
    };
    check(rt, alloc, &resting(alloc)?, &cert, 3)
}

fn refused(line: u32, cause: CheckCause) -> Answer {
    Answer::Refused { line, cause }
}

/// The minute, and the tick behind it.
#[test]
fn cells_of_both_slots_are_accepted(rt: HostRuntime) {
    let alloc = rt.alloc();
    let a = cell(0, 59_999_999, Kind::Near);
    let b = cell(60_000_000, 60_000_000, Kind::Near);
    assert_eq!(rt;
        answer(&rt, alloc, &[a, b]).expect(&rt, "no fault"),
        Answer::Accepted
    );
    // In two parts.
    let (c, d) = (cell(0, 5, Kind::Near), cell(6, 59_999_999, Kind::Near));
    assert_eq!(rt;
        answer(&rt, alloc, &[c, d, b]).expect(&rt, "no fault"),
        Answer::Accepted
    );
}

#[test]
fn a_cell_less_is_refused(rt: HostRuntime) {
    let alloc = rt.alloc();
    let a = cell(0, 59_999_999, Kind::Near);
    let b = cell(60_000_000, 60_000_000, Kind::Near);
    assert_eq!(rt;
        answer(&rt, alloc, &[b]).expect(&rt, "no fault"),
        refused(11, CheckCause::Untiled)
    );
    assert_eq!(rt;
        answer(&rt, alloc, &[a]).expect(&rt, "no fault"),
        refused(12, CheckCause::Untiled)
    );
    assert_eq!(rt;
        answer(&rt, alloc, &[]).expect(&rt, "no fault"),
        refused(11, CheckCause::Untiled)
    );
    // Ticks between two parts, and behind the first.
    let (c, d) = (cell(0, 5, Kind::Near), cell(7, 59_999_999, Kind::Near));
    assert_eq!(rt;
        answer(&rt, alloc, &[c, d, b]).expect(&rt, "no fault"),
        refused(12, CheckCause::Untiled)
    );
    assert_eq!(rt;
        answer(&rt, alloc, &[c, b]).expect(&rt, "no fault"),
        refused(12, CheckCause::Untiled)
    );
}

#[test]
fn a_cell_more_is_refused(rt: HostRuntime) {
    let alloc = rt.alloc();
    let a = cell(0, 59_999_999, Kind::Near);
    let b = cell(60_000_000, 60_000_000, Kind::Near);
    assert_eq!(rt;
        answer(&rt, alloc, &[a, a, b]).expect(&rt, "no fault"),
        refused(12, CheckCause::Stranger)
    );
    assert_eq!(rt;
        answer(&rt, alloc, &[a, b, b]).expect(&rt, "no fault"),
        refused(13, CheckCause::Stranger)
    );
    // Over the end of its root, and over a part that is listed already.
    let long = cell(0, 60_000_000, Kind::Near);
    assert_eq!(rt;
        answer(&rt, alloc, &[long]).expect(&rt, "no fault"),
        refused(11, CheckCause::Stranger)
    );
    let part = cell(6, 59_999_999, Kind::Near);
    assert_eq!(rt;
        answer(&rt, alloc, &[a, part, b]).expect(&rt, "no fault"),
        refused(12, CheckCause::Stranger)
    );
}

/// Exactly at the threshold near is supported, and so is the band; far is not.
#[test]
fn a_kind_that_is_not_supported_is_refused(rt: HostRuntime) {
    let alloc = rt.alloc();
    let a = cell(0, 59_999_999, Kind::Near);
    let b = cell(60_000_000, 60_000_000, Kind::Near);
    let (far, band) = (
        cell(0, 59_999_999, Kind::Far),
        cell(0, 59_999_999, Kind::Undecided),
    );
    assert_eq!(rt;
        answer(&rt, alloc, &[far, b]).expect(&rt, "no fault"),
        refused(11, CheckCause::NotFar)
    );
    assert_eq!(rt;
        answer(&rt, alloc, &[band, b]).expect(&rt, "no fault"),
        Answer::Accepted
    );
    let far = cell(60_000_000, 60_000_000, Kind::Far);
    assert_eq!(rt;
        answer(&rt, alloc, &[a, far]).expect(&rt, "no fault"),
        refused(12, CheckCause::NotFar)
    );
}

/// In version 2, by sizes and a box for both slots; another threshold, and a box a nanometre aside.
#[test]
fn a_certificate_of_version_2_is_checked(rt: HostRuntime) {
    let alloc = rt.alloc();
    for (threshold, x, expected) in [
        (5_000_000_000_000, 7_000_000_000_000_000, Answer::Accepted),
        (
            4_999_000_000_000,
            7_000_000_000_000_000,
            refused(3, CheckCause::Header),
        ),
        (
            5_000_000_000_000,
            7_000_000_000_000_001,
            refused(9, CheckCause::BoxOf),
        ),
    ] {
        let (a, b) = (place(x), place(7_005_000_000_000_000));
        let cert = Certificate {
            version: CertVersion::Two,
            window: seconds(0, 60),
            threshold,
            objects: 2,
            sizes: vec![in alloc;
                SizeOfLine { object: 0, size: 0 },
                SizeOfLine { object: 1, size: 0 },
            ]
            .expect(&rt, "no fault"),
            shells: vec![in alloc;
                shell_of(0, 7_000_000_000_000_000),
                shell_of(1, 7_005_000_000_000_000),
            ]
            .expect(&rt, "no fault"),
            boxes: vec![in alloc;
                BoxLine {
                    object: 0,
                    first: 0,
                    last: 1,
                    area: a
                },
                BoxLine {
                    object: 1,
                    first: 0,
                    last: 1,
                    area: b
                },
            ]
            .expect(&rt, "no fault"),
            cells: vec![in alloc;
                cell(0, 59_999_999, Kind::Near),
                cell(60_000_000, 60_000_000, Kind::Near),
            ]
            .expect(&rt, "no fault"),
        };
        assert_eq!(rt;
            check(
                &rt,
                alloc,
                &resting(alloc).expect(&rt, "no fault"),
                &cert,
                3
            )
            .expect(&rt, "no fault"),
            expected
        );
    }
}
