//! The failures of lines, one kind of them at a time.
ghost use Rattle.std.specs.Prelude.{◌≡◌, ◌≤◌, ◌≤ℤ◌, IfOk, vec_len};

use cj_case::{AxisBox, Primaries, Problem, Shell, Sizes, Tracks};
use cj_cert::{BoxLine, Certificate, ShellLine, SizeOfLine};
use cj_checker::{CheckCause, Failure, header_failure, hull_failure, size_failure};
use cj_formats::CertVersion;
use cj_samples::{AT_7000, AT_7005, rest, seconds, track_of, track_of_two};
use cj_track::Vec3;
use std::alloc::{AllocError, Global};
use std::panic::Expect;
use std::thread::Threads;

/// Three objects for three minutes and a tick, in four slots: one at rest that has states in the first and the third slot, one
/// without a state in the window, and one at rest throughout.
fn problem(alloc: Global) -> Result<Problem, AllocError> {
    let apart = track_of_two(
        alloc,
        rest(alloc, 0, 30, AT_7000)?,
        rest(alloc, 130, 150, AT_7000)?,
    )?;
    let later = track_of(alloc, rest(alloc, 200, 250, AT_7005)?)?;
    let whole = track_of(alloc, rest(alloc, 0, 180, AT_7005)?)?;
    Ok(Problem {
        tracks: Tracks::new(vec![in alloc; apart, later, whole]?),
        window: seconds(0, 180),
        threshold: 5_000_000_000_000,
        sizes: Sizes::new(vec![in alloc; 0, 3_000_000_000, 0]?),
        primaries: Primaries::all(),
    })
}

fn size_of(object: u32, size: u64) -> SizeOfLine {
    SizeOfLine { object, size }
}

fn shell_of(object: u32, lo: u64, hi: u64) -> ShellLine {
    ShellLine {
        object,
        shell: Some(Shell { lo, hi }),
    }
}

fn no_shell(object: u32) -> ShellLine {
    ShellLine {
        object,
        shell: None,
    }
}

/// A box round places on the x axis.
fn box_of(object: u32, first: u32, last: u32, least: i64, most: i64) -> BoxLine
    requires { least ≤ℤ most }
{
    BoxLine {
        object,
        first,
        last,
        area: AxisBox {
            least: Vec3 {
                x: least,
                y: 0,
                z: 0,
            },
            most: Vec3 {
                x: most,
                y: 0,
                z: 0,
            },
        },
    }
}

/// Where the objects are on the x axis.
const NEAR: i64 = 7_000_000_000_000_000;

const FAR: i64 = 7_005_000_000_000_000;

/// A certificate of version 2 with these lines. Sizes begin at line 5, shells at line 8 and boxes at line 11 where each object has a line.
fn certificate(
    alloc: Global,
    sizes: Vec<SizeOfLine>,
    shells: Vec<ShellLine>,
    boxes: Vec<BoxLine>,
) -> Certificate
    ensures sizes { vec_len result.sizes ≡ vec_len sizes }
    ensures shells { vec_len result.shells ≡ vec_len shells }
    ensures boxes { vec_len result.boxes ≡ vec_len boxes }
{
    Certificate {
        version: CertVersion::Two,
        window: seconds(0, 180),
        threshold: 5_000_000_000_000,
        objects: 3,
        sizes,
        shells,
        boxes,
        cells: Vec::new(alloc),
    }
}

fn own_sizes(alloc: Global) -> Result<Vec<SizeOfLine>, AllocError>
    ensures { IfOk result (λ sizes. vec_len sizes ≡ 3) }
{
    Ok(vec![in alloc; size_of(0, 0), size_of(1, 3_000_000_000), size_of(2, 0)]?)
}

fn own_shells(alloc: Global) -> Result<Vec<ShellLine>, AllocError>
    ensures { IfOk result (λ shells. vec_len shells ≡ 3) }
{
    Ok(vec![in alloc;
        shell_of(0, 7_000_000_000_000_000, 7_000_000_000_000_000),
        no_shell(1),
        shell_of(2, 7_005_000_000_000_000, 7_005_000_000_000_000),
    ]?)
}

/// The line of the first failure of sizes.
fn by_sizes(alloc: Global, sizes: Vec<SizeOfLine>) -> Result<Option<Failure>, AllocError>
    requires { vec_len sizes ≤ 100 }
{
    let shells = own_shells(alloc)?;
    let cert = certificate(alloc, sizes, shells, Vec::new(alloc));
    Ok(size_failure(&problem(alloc)?, &cert))
}

fn own_boxes(alloc: Global) -> Result<Vec<BoxLine>, AllocError>
    ensures { IfOk result (λ boxes. vec_len boxes ≡ 3) }
{
    Ok(vec![in alloc;
        box_of(0, 0, 0, NEAR, NEAR),
        box_of(0, 2, 2, NEAR, NEAR),
        box_of(2, 0, 3, FAR, FAR),
    ]?)
}

/// The first failure of shells.
fn by_shells<R: Threads + Sync>(
    rt: &R,
    alloc: Global,
    shells: Vec<ShellLine>,
) -> Result<Option<Failure>, AllocError>
    requires { vec_len shells ≤ 100 }
{
    let sizes = own_sizes(alloc)?;
    let boxes = own_boxes(alloc)?;
    let cert = certificate(alloc, sizes, shells, boxes);
    hull_failure(rt, alloc, &problem(alloc)?, &cert, 3)
}

/// The first failure of boxes.
fn by_boxes<R: Threads + Sync>(
    rt: &R,
    alloc: Global,
    boxes: Vec<BoxLine>,
) -> Result<Option<Failure>, AllocError>
    requires { vec_len boxes ≤ 100 }
{
    let sizes = own_sizes(alloc)?;
    let shells = own_shells(alloc)?;
    let cert = certificate(alloc, sizes, shells, boxes);
    hull_failure(rt, alloc, &problem(alloc)?, &cert, 3)
}

fn at(line: u32, cause: CheckCause) -> Option<Failure> {
    Some(Failure { line, cause })
}

#[test]
fn each_object_has_its_size(rt: HostRuntime) {
    let alloc = rt.alloc();
    let (a, b, c) = (size_of(0, 0), size_of(1, 3_000_000_000), size_of(2, 0));
    for (lines, expected) in [
        ([a, b, c], None),
        ([a, size_of(1, 3_000_000_001), c], at(6, CheckCause::SizeOf)),
        ([a, size_of(1, 2_999_999_999), c], at(6, CheckCause::SizeOf)),
        ([a, c, b], at(6, CheckCause::SizeOf)),
    ] {
        assert_eq!(rt;
            by_sizes(alloc, Vec::from_array(alloc, lines).expect(&rt, "no fault")).expect(
                &rt, "no fault"
            ),
            expected
        );
    }
    assert_eq!(rt;
        by_sizes(alloc, vec![in alloc; a, b].expect(&rt, "no fault")).expect(&rt, "no fault"),
        at(7, CheckCause::SizeOf)
    );
    assert_eq!(rt;
        by_sizes(alloc, vec![in alloc; a, b, c, c].expect(&rt, "no fault")).expect(&rt, "no fault"),
        at(8, CheckCause::SizeOf)
    );
}

#[test]
fn each_object_has_a_shell_that_its_hulls_show(rt: HostRuntime) {
    let alloc = rt.alloc();
    let (near, far) = (7_000_000_000_000_000, 7_005_000_000_000_000);
    let (a, b, c) = (shell_of(0, near, near), no_shell(1), shell_of(2, far, far));
    for (lines, expected) in [
        ([a, b, c], None),
        ([shell_of(0, 0, near + 1), b, c], None),
        (
            [shell_of(0, near + 1, near + 1), b, c],
            at(8, CheckCause::ShellOf),
        ),
        ([no_shell(0), b, c], at(8, CheckCause::ShellOf)),
        ([a, shell_of(1, 0, far), c], at(9, CheckCause::ShellOf)),
        ([a, c, b], at(9, CheckCause::ShellOf)),
        ([a, b, shell_of(2, 0, far - 1)], at(10, CheckCause::ShellOf)),
    ] {
        assert_eq!(rt;
            by_shells(
                &rt,
                alloc,
                Vec::from_array(alloc, lines).expect(&rt, "no fault")
            )
            .expect(&rt, "no fault"),
            expected
        );
    }
    assert_eq!(rt;
        by_shells(&rt, alloc, vec![in alloc; a, b].expect(&rt, "no fault")).expect(&rt, "no fault"),
        at(10, CheckCause::ShellOf)
    );
    assert_eq!(rt;
        by_shells(
            &rt,
            alloc,
            vec![in alloc; a, b, c, c].expect(&rt, "no fault")
        )
        .expect(&rt, "no fault"),
        at(11, CheckCause::ShellOf)
    );
}

/// The slots in which the objects have states are 0 and 2 of the first, and all four of the third.
#[test]
fn lines_of_boxes_have_the_slots_with_states(rt: HostRuntime) {
    let alloc = rt.alloc();
    let (a, b) = (box_of(0, 0, 0, NEAR, NEAR), box_of(0, 2, 2, NEAR, NEAR));
    let c = box_of(2, 0, 3, FAR, FAR);
    for (lines, expected) in [
        ([a, b, c], None),
        // A run over a slot without a state, and places out of order.
        (
            [box_of(0, 0, 2, NEAR, NEAR), c, c],
            at(11, CheckCause::BoxOf),
        ),
        (
            [a, box_of(0, 1, 2, NEAR, NEAR), c],
            at(12, CheckCause::BoxOf),
        ),
        ([b, a, c], at(11, CheckCause::BoxOf)),
        ([a, c, b], at(12, CheckCause::BoxOf)),
        ([a, b, box_of(1, 0, 3, FAR, FAR)], at(13, CheckCause::BoxOf)),
        // Slots that are left, slots behind the last, and no slot.
        ([a, b, box_of(2, 0, 2, FAR, FAR)], at(14, CheckCause::BoxOf)),
        ([a, b, box_of(2, 0, 4, FAR, FAR)], at(13, CheckCause::BoxOf)),
        (
            [a, b, box_of(2, 0, 4_294_967_295, FAR, FAR)],
            at(13, CheckCause::BoxOf),
        ),
        ([a, b, box_of(2, 3, 0, FAR, FAR)], at(13, CheckCause::BoxOf)),
    ] {
        assert_eq!(rt;
            by_boxes(
                &rt,
                alloc,
                Vec::from_array(alloc, lines).expect(&rt, "no fault")
            )
            .expect(&rt, "no fault"),
            expected
        );
    }
    assert_eq!(rt;
        by_boxes(&rt, alloc, vec![in alloc; a, b].expect(&rt, "no fault")).expect(&rt, "no fault"),
        at(13, CheckCause::BoxOf)
    );
    assert_eq!(rt;
        by_boxes(
            &rt,
            alloc,
            vec![in alloc; a, b, c, c].expect(&rt, "no fault")
        )
        .expect(&rt, "no fault"),
        at(14, CheckCause::BoxOf)
    );
}

#[test]
fn a_box_holds_the_hulls_in_each_of_its_slots(rt: HostRuntime) {
    let alloc = rt.alloc();
    let (a, b) = (box_of(0, 0, 0, NEAR, NEAR), box_of(0, 2, 2, NEAR, NEAR));
    let c = box_of(2, 0, 3, FAR, FAR);
    for (lines, expected) in [
        ([a, b, box_of(2, 0, 3, i64::MIN, i64::MAX)], None),
        (
            [a, b, box_of(2, 0, 3, FAR + 1, FAR + 1)],
            at(13, CheckCause::BoxOf),
        ),
        (
            [a, b, box_of(2, 0, 3, FAR - 1, FAR - 1)],
            at(13, CheckCause::BoxOf),
        ),
        (
            [a, box_of(0, 2, 2, NEAR - 2, NEAR - 1), c],
            at(12, CheckCause::BoxOf),
        ),
    ] {
        assert_eq!(rt;
            by_boxes(
                &rt,
                alloc,
                Vec::from_array(alloc, lines).expect(&rt, "no fault")
            )
            .expect(&rt, "no fault"),
            expected
        );
    }
}

#[test]
fn the_header_is_that_of_the_problem(rt: HostRuntime) {
    let alloc = rt.alloc();
    let problem = problem(alloc).expect(&rt, "no fault");
    let mut cert = certificate(alloc, Vec::new(alloc), Vec::new(alloc), Vec::new(alloc));
    assert_eq!(rt; header_failure(&problem, &cert), None);
    cert.objects = 2;
    assert_eq!(rt; header_failure(&problem, &cert), at(4, CheckCause::Header));
    cert.threshold = 5_000_000_000_001;
    assert_eq!(rt; header_failure(&problem, &cert), at(3, CheckCause::Header));
    cert.window = seconds(0, 179);
    assert_eq!(rt; header_failure(&problem, &cert), at(2, CheckCause::Header));
}
