//! Small certificates, their texts, and how these are read again.
ghost use Rattle.std.specs.Prelude.{◌≡◌, ◌≤◌, true, [], ◌∷◌, Some, IfOk};
ghost use Rattle.cj_cert.specs.Certificates.{plain_certificate};
ghost use Rattle.cj_cert.specs.Listed.{shells_listed};
ghost use Rattle.cj_cert.specs.Versions.{is_of_version};

use cj_base::{Tick, Window};
use cj_case::{AxisBox, Kind, Pair, Shell};
use cj_cert::{BoxLine, CellLine, Certificate, ShellLine, SizeOfLine};
use cj_cert_text::{cert_text, read_cert};
use cj_formats::CertVersion;
use cj_track::Vec3;
use std::alloc::{AllocError, Global};
use std::panic::Expect;

/// The certificate of an empty folder.
const EMPTY: &[u8] = b"CONJ-CERT 1
WINDOW 63072000000000 63072000000000
THRESHOLD 5000000000000
OBJECTS 0
END
";

/// Two objects at rest, exactly the threshold of 5 km apart, for a minute.
const AT_REST: &[u8] = b"CONJ-CERT 1
WINDOW 1735689600000000 1735689660000000
THRESHOLD 5000000000000
OBJECTS 2
SHELL 1 7000000000000000 7000000000000000
SHELL 2 7005000000000000 7005000000000000
BOX 1 0 7000000000000000 7000000000000000 0 0 0 0
BOX 1 1 7000000000000000 7000000000000000 0 0 0 0
BOX 2 0 7005000000000000 7005000000000000 0 0 0 0
BOX 2 1 7005000000000000 7005000000000000 0 0 0 0
CELL 1 2 1735689600000000 1735689659999999 N
CELL 1 2 1735689660000000 1735689660000000 N
END
";

/// The same in version 2.
pub const AT_REST_2: &[u8] = b"CONJ-CERT 2
WINDOW 1735689600000000 1735689660000000
THRESHOLD 5000000000000
OBJECTS 2
SIZE 1 0
SIZE 2 0
SHELL 1 7000000000000000 7000000000000000
SHELL 2 7005000000000000 7005000000000000
BOX 1 0 1 7000000000000000 7000000000000000 0 0 0 0
BOX 2 0 1 7005000000000000 7005000000000000 0 0 0 0
CELL 1 2 1735689600000000 1735689659999999 N
CELL 1 2 1735689660000000 1735689660000000 N
END
";

const FIRST: Tick = Tick {
    micros: 1_735_689_600_000_000,
};

const LAST: Tick = Tick {
    micros: 1_735_689_660_000_000,
};

fn empty(alloc: Global) -> Certificate {
    Certificate {
        version: CertVersion::One,
        window: Window {
            first: Tick::FIRST,
            last: Tick::FIRST,
        },
        threshold: 5_000_000_000_000,
        objects: 0,
        sizes: Vec::new(alloc),
        shells: Vec::new(alloc),
        boxes: Vec::new(alloc),
        cells: Vec::new(alloc),
    }
}

/// The place on the x axis as a box.
fn place(x: i64) -> AxisBox {
    let at = Vec3 { x, y: 0, z: 0 };
    AxisBox {
        least: at,
        most: at,
    }
}

fn at_rest_on(object: u32, radius: u64) -> ShellLine
    ensures { result.shell ≡ Some (record { lo = radius; hi = radius }) }
{
    ShellLine {
        object,
        shell: Some(Shell {
            lo: radius,
            hi: radius,
        }),
    }
}

fn box_of(object: u32, first: u32, last: u32, x: i64) -> BoxLine
    ensures first { result.first ≡ first }
    ensures last { result.last ≡ last }
{
    BoxLine {
        object,
        first,
        last,
        area: place(x),
    }
}

fn near(first: Tick, last: Tick) -> CellLine
    requires { first.micros ≤ last.micros }
{
    CellLine {
        pair: Pair { a: 0, b: 1 },
        first,
        last,
        kind: Kind::Near,
    }
}

fn at_rest(
    alloc: Global,
    version: CertVersion,
    sizes: Vec<SizeOfLine>,
    boxes: Vec<BoxLine>,
) -> Result<Certificate, AllocError>
    requires { is_of_version version sizes.items boxes.items ≡ true }
    ensures { IfOk result (λ cert. shells_listed (plain_certificate cert)
        ≡ Some (record { lo = 7000000000000000; hi = 7000000000000000 }) ∷ Some (record { lo = 7005000000000000; hi = 7005000000000000 }) ∷ []) }
{
    let before_last = Tick {
        micros: LAST.micros - 1,
    };
    Ok(Certificate {
        version,
        window: Window {
            first: FIRST,
            last: LAST,
        },
        threshold: 5_000_000_000_000,
        objects: 2,
        sizes,
        shells: vec![in alloc;
            at_rest_on(0, 7_000_000_000_000_000),
            at_rest_on(1, 7_005_000_000_000_000),
        ]?,
        boxes,
        cells: vec![in alloc; near(FIRST, before_last), near(LAST, LAST)]?,
    })
}

pub fn at_rest_1(alloc: Global) -> Result<Certificate, AllocError>
    ensures shells { IfOk result (λ cert. shells_listed (plain_certificate cert)
        ≡ Some (record { lo = 7000000000000000; hi = 7000000000000000 }) ∷ Some (record { lo = 7005000000000000; hi = 7005000000000000 }) ∷ []) }
{
    let boxes = vec![in alloc;
        box_of(0, 0, 0, 7_000_000_000_000_000),
        box_of(0, 1, 1, 7_000_000_000_000_000),
        box_of(1, 0, 0, 7_005_000_000_000_000),
        box_of(1, 1, 1, 7_005_000_000_000_000),
    ]?;
    at_rest(alloc, CertVersion::One, Vec::new(alloc), boxes)
}

/// `AT_REST` with more boxes behind its own: of a place that has one, of an object and of a slot that are not there.
pub fn at_rest_with_more(alloc: Global) -> Result<Certificate, AllocError>
    ensures shells { IfOk result (λ cert. shells_listed (plain_certificate cert)
        ≡ Some (record { lo = 7000000000000000; hi = 7000000000000000 }) ∷ Some (record { lo = 7005000000000000; hi = 7005000000000000 }) ∷ []) }
{
    let boxes = vec![in alloc;
        box_of(0, 0, 0, 7_000_000_000_000_000),
        box_of(0, 1, 1, 7_000_000_000_000_000),
        box_of(1, 0, 0, 7_005_000_000_000_000),
        box_of(1, 1, 1, 7_005_000_000_000_000),
        box_of(0, 1, 1, 1),
        box_of(2, 0, 0, 2),
        box_of(1, 2, 2, 3),
    ]?;
    at_rest(alloc, CertVersion::One, Vec::new(alloc), boxes)
}

pub fn at_rest_2(alloc: Global) -> Result<Certificate, AllocError>
    ensures shells { IfOk result (λ cert. shells_listed (plain_certificate cert)
        ≡ Some (record { lo = 7000000000000000; hi = 7000000000000000 }) ∷ Some (record { lo = 7005000000000000; hi = 7005000000000000 }) ∷ []) }
{
    let sizes = vec![in alloc;
        SizeOfLine { object: 0, size: 0 },
        SizeOfLine { object: 1, size: 0 },
    ]?;
    let boxes = vec![in alloc;
        box_of(0, 0, 1, 7_000_000_000_000_000),
        box_of(1, 0, 1, 7_005_000_000_000_000),
    ]?;
    at_rest(alloc, CertVersion::Two, sizes, boxes)
}

#[test]
fn certificates_have_their_texts(rt: HostRuntime) {
    let alloc = rt.alloc();
    assert_eq!(rt;
        cert_text(&rt, alloc, &empty(alloc), 1)
            .expect(&rt, "no fault")
            .as_slice(),
        EMPTY
    );
    assert_eq!(rt;
        cert_text(&rt, alloc, &at_rest_1(alloc).expect(&rt, "no fault"), 1)
            .expect(&rt, "no fault")
            .as_slice(),
        AT_REST
    );
    assert_eq!(rt;
        cert_text(&rt, alloc, &at_rest_2(alloc).expect(&rt, "no fault"), 1)
            .expect(&rt, "no fault")
            .as_slice(),
        AT_REST_2
    );
}

#[test]
fn what_is_printed_is_read_again(rt: HostRuntime) {
    let alloc = rt.alloc();
    assert_eq!(rt; read_cert(alloc, EMPTY), Ok(empty(alloc)));
    assert_eq!(rt;
        read_cert(alloc, AT_REST),
        Ok(at_rest_1(alloc).expect(&rt, "no fault"))
    );
    assert_eq!(rt;
        read_cert(alloc, AT_REST_2),
        Ok(at_rest_2(alloc).expect(&rt, "no fault"))
    );
}

/// A certificate of many cells, of one tick each.
fn of_many_cells(alloc: Global) -> Result<Certificate, AllocError> {
    let mut cells = Vec::new(alloc);
    for later in 0..10_000 {
        let tick = Tick {
            micros: FIRST.micros + later,
        };
        cells.push(near(tick, tick))?;
    }
    Ok(Certificate {
        version: CertVersion::One,
        window: Window {
            first: FIRST,
            last: LAST,
        },
        threshold: 5_000_000_000_000,
        objects: 2,
        sizes: Vec::new(alloc),
        shells: Vec::new(alloc),
        boxes: Vec::new(alloc),
        cells,
    })
}

#[test]
fn parts_by_several_workers_stand_in_order(rt: HostRuntime) {
    let alloc = rt.alloc();
    let cert = of_many_cells(alloc).expect(&rt, "no fault");
    let text = cert_text(&rt, alloc, &cert, 4).expect(&rt, "no fault");
    assert_eq!(rt;
        text.as_slice(),
        cert_text(&rt, alloc, &cert, 1)
            .expect(&rt, "no fault")
            .as_slice()
    );
    assert!(rt; text.len() < 1_000_000);
    assert_eq!(rt; read_cert(alloc, &text), Ok(cert));
}
