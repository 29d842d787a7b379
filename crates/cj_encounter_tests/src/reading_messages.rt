//! Reading messages again, and texts that are none.
ghost use Rattle.std.specs.Prelude.{◌<◌, ◌%◌, ◌^◌};

use crate::expected::crossing;
use crate::writing_messages::tick;
use cj_base::{Decimal, Text};
use cj_cdm::{Cdm, CdmCause, CdmFault, Side, Vector, read_cdm};
use cj_track::Frame;
use std::alloc::{AllocError, Global};
use std::panic::Expect;

/// Lines that do not begin with the key in their place.
const OTHER_KEYS: [(u32, &[u8]); 12] = [
    (1, b""),
    (1, b"COMMENT CCSDS_CDM_VERS = 1.0"),
    (2, b"ORIGINATOR = CONJ"),
    (3, b"ORIGINATOR =CONJ"),
    (4, b"MESSAGE_ID"),
    (6, b"MISS_DISTANC = 1000.000000000 [m]"),
    (9, b" OBJECT = OBJECT1"),
    (18, b"Y = 7000.000000000000 [km]"),
    (24, b"COMMENT COVARIANCE EPOCH"),
    (26, b"CR_T = 4.6189273E+02 [m**2]"),
    (46, b"OBJECTS = OBJECT2"),
    (82, b"CNDOT_NDOT= 0.0E+00 [m**2/s**2]"),
];

/// Lines whose value is not of the form in its place.
const BAD_VALUES: [(u32, &[u8]); 32] = [
    (1, b"CCSDS_CDM_VERS = 1.00"),
    (2, b"CREATION_DATE = 2025-01-02T00:00:00.00000"),
    (2, b"CREATION_DATE = 2025-01-02T00:00:00.0000000"),
    (2, b"CREATION_DATE = 2025-01-02T00:00:60.000000"),
    (2, b"CREATION_DATE = 2025-002T00:00:00.000000"),
    (3, b"ORIGINATOR = "),
    (3, b"ORIGINATOR = CONJ "),
    (4, b"MESSAGE_ID = CONJ_00001"),
    (4, b"MESSAGE_ID = CONJ_000000"),
    (4, b"MESSAGE_ID = CONJ_0000001"),
    (4, b"MESSAGE_ID = CONJ_4294967296"),
    (4, b"MESSAGE_ID = OTHER_000001"),
    (6, b"MISS_DISTANCE = 1000.00000000 [m]"),
    (6, b"MISS_DISTANCE = 1000.000000000 [km]"),
    (6, b"MISS_DISTANCE = -1000.000000000 [m]"),
    (6, b"MISS_DISTANCE = 18446744073.709551616 [m]"),
    (9, b"OBJECT = OBJECT2"),
    (10, b"OBJECT_DESIGNATOR =  2025-001A"),
    (11, b"CATALOG_NAME = SATCAT"),
    (13, b"INTERNATIONAL_DESIGNATOR = 2025-001a"),
    (13, b"INTERNATIONAL_DESIGNATOR = unknown"),
    (17, b"REF_FRAME = ITRF"),
    (18, b"X = 07000.000000000000 [km]"),
    (18, b"X = 7000.0000000000000 [km]"),
    (19, b"Y = -0.000000000000 [km]"),
    (20, b"Z = 1000000000000000000000000.000000000000 [km]"),
    (22, b"Y_DOT = 7.500000000000 [km]"),
    (25, b"CR_R = 3.33134940E+02 [m**2]"),
    (25, b"CR_R = 3.3313494E+2 [m**2]"),
    (25, b"CR_R = 33.313494E+01 [m**2]"),
    (28, b"CN_R = 0.0E+01 [m**2]"),
    (31, b"CRDOT_R = 0.0E+00 [m**2]"),
];

/// Other lines that are taken.
const OTHER_VALUES: [(u32, &[u8]); 9] = [
    (4, b"MESSAGE_ID = CONJ_1000000"),
    (4, b"MESSAGE_ID = CONJ_4294967295"),
    (6, b"MISS_DISTANCE = 18446744073.709551615 [m]"),
    (13, b"INTERNATIONAL_DESIGNATOR = UNKNOWN"),
    (17, b"REF_FRAME = GCRF"),
    (18, b"X = -0.000000000001 [km]"),
    (19, b"Y = 999999999999999999999999.999999999999 [km]"),
    (25, b"CR_R = -9.99999999999999999E-93 [m**2]"),
    (82, b"CNDOT_NDOT = 1.0E+105 [m**2/s**2]"),
];

/// The first fault of a text: its line, and its cause.
fn fault(alloc: Global, text: &[u8]) -> Option<(u32, CdmCause)> {
    if text.len() > u32::MAX as usize {
        return None;
    }
    match read_cdm(alloc, text) {
        Err(CdmFault::At { line, cause }) => Some((line, cause)),
        _ => None,
    }
}

/// The text with this line in place of the one with this number.
pub fn with_line(
    alloc: Global,
    text: &[u8],
    number: u32,
    line: &[u8],
) -> Result<Vec<u8>, AllocError> {
    let mut changed = Vec::new(alloc);
    for (index, old) in text.split(|b| *b == b'\n').enumerate() {
        if index > 0 {
            changed.push(b'\n')?;
        }
        if index + 1 == number as usize {
            changed.extend_from_slice(line)?;
        } else {
            changed.extend_from_slice(old)?;
        }
    }
    Ok(changed)
}

fn decimal(digits: u64, exponent: i32) -> Decimal
    requires short { digits < 10 ^ 18 }
    requires normal { 0 < digits % 10 }
{
    Decimal {
        negative: false,
        digits,
        exponent,
    }
}

/// An object of the message, whose covariance is zero but for the first three elements.
fn side(
    alloc: Global,
    names: [&[u8]; 3],
    place: Vector,
    rate: Vector,
    elements: [Decimal; 3],
) -> Result<Side, AllocError> {
    let [id, name, file] = names;
    let [a, b, c] = elements;
    let z = Decimal::ZERO;
    Ok(Side {
        id: Text::copy_of(alloc, id)?,
        name: Text::copy_of(alloc, name)?,
        designator: Text::copy_of(alloc, id)?,
        file: Text::copy_of(alloc, file)?,
        frame: Frame::Eme2000,
        place,
        rate,
        epoch: tick(0),
        values: [
            a, b, c, z, z, z, z, z, z, z, z, z, z, z, z, z, z, z, z, z, z,
        ],
    })
}

/// What the message of two tracks that cross at one kilometre says.
pub fn crossing_read(alloc: Global) -> Result<Cdm, AllocError> {
    let x = 7_000_000_000_000_000;
    let speed = 7_500_000_000_000;
    Ok(Cdm {
        created: tick(86_400_000_000),
        originator: Text::copy_of(alloc, b"CONJ")?,
        number: 1,
        tca: tick(30_000_000),
        miss: 1_000_000_000_000,
        start: tick(0),
        stop: tick(60_000_000),
        first: side(
            alloc,
            [b"2025-001A", b"SAT A", b"a.oem"],
            Vector { x, y: 0, z: 0 },
            Vector {
                x: 0,
                y: speed,
                z: 0,
            },
            [
                decimal(33_313_494, -5),
                decimal(46_189_273, -5),
                decimal(67_824_216, -5),
            ],
        )?,
        second: side(
            alloc,
            [b"2025-002A", b"SAT B", b"b.oem"],
            Vector {
                x: x + 1_000_000_000_000,
                y: 0,
                z: 0,
            },
            Vector {
                x: 0,
                y: 0,
                z: speed,
            },
            [decimal(1, 6), Decimal::ZERO, Decimal::ZERO],
        )?,
    })
}

#[test]
fn the_message_is_read_again(rt: HostRuntime) {
    let alloc = rt.alloc();
    let text = crossing(alloc).expect(&rt, "no fault");
    if text.len() <= u32::MAX as usize {
        let expected = crossing_read(alloc).expect(&rt, "no fault");
        let cdm = read_cdm(alloc, &text).expect(&rt, "no fault");
        assert_eq!(rt; cdm, expected);
    }
}

/// A fault of this cause at a line, where there is a cause.
pub fn fault_at(number: u32, cause: Option<CdmCause>) -> Option<(u32, CdmCause)> {
    Some((number, cause?))
}

/// The first of these lines for which, in place of the one with its number, the text does not have this fault there.
fn first_wrong(
    alloc: Global,
    text: &[u8],
    lines: &[(u32, &[u8])],
    cause: Option<CdmCause>,
) -> Result<Option<usize>, AllocError> {
    for (i, (number, line)) in lines.iter().enumerate() {
        let changed = with_line(alloc, text, *number, line)?;
        if fault(alloc, &changed) != fault_at(*number, cause) {
            return Ok(Some(i));
        }
    }
    Ok(None)
}

#[test]
fn a_line_with_another_key(rt: HostRuntime) {
    let text = crossing(rt.alloc()).expect(&rt, "no fault");
    let lines = OTHER_KEYS.as_slice();
    assert_eq!(rt;
        first_wrong(rt.alloc(), &text, lines, Some(CdmCause::Key)).expect(&rt, "no fault"),
        None
    );
}

#[test]
fn a_line_with_a_bad_value(rt: HostRuntime) {
    let text = crossing(rt.alloc()).expect(&rt, "no fault");
    let lines = BAD_VALUES.as_slice();
    assert_eq!(rt;
        first_wrong(rt.alloc(), &text, lines, Some(CdmCause::Value)).expect(&rt, "no fault"),
        None
    );
}

#[test]
fn a_line_with_another_value(rt: HostRuntime) {
    let text = crossing(rt.alloc()).expect(&rt, "no fault");
    let lines = OTHER_VALUES.as_slice();
    assert_eq!(rt;
        first_wrong(rt.alloc(), &text, lines, None).expect(&rt, "no fault"),
        None
    );
}

#[test]
fn a_text_that_ends_early_or_goes_on(rt: HostRuntime) {
    let alloc = rt.alloc();
    let whole = crossing(alloc).expect(&rt, "no fault");
    let cut = match whole.as_slice() {
        [front @ .., _] => front,
        [] => b"",
    };
    let mut longer = Vec::from_slice(alloc, &whole).expect(&rt, "no fault");
    longer.push(b'\n').expect(&rt, "no fault");
    assert_eq!(rt; fault(alloc, b""), Some((1, CdmCause::End)));
    assert_eq!(rt;
        fault(alloc, b"CCSDS_CDM_VERS = 1.0"),
        Some((2, CdmCause::End))
    );
    assert_eq!(rt;
        fault(alloc, b"CCSDS_CDM_VERS = 1.0\n"),
        Some((2, CdmCause::End))
    );
    assert_eq!(rt; fault(alloc, cut), Some((83, CdmCause::End)));
    assert_eq!(rt; fault(alloc, &longer), Some((83, CdmCause::End)));
}
