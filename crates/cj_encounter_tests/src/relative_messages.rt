//! Messages with the lines of a relative state. What is expected was written apart.
ghost use Rattle.std.specs.Prelude.{◌≡◌};
ghost use Rattle.std.specs.List.{count_by};
ghost use Rattle.cj_base.specs.Bytes.{is_feed};

use crate::expected::crossing;
use crate::reading_messages::{crossing_read, fault_at, with_line};
use cj_cdm::{AxisValues, Cdm, CdmCause, CdmFault, Rtn, add_lines, read_cdm, read_message};
use std::alloc::{AllocError, Global};
use std::panic::Expect;

/// The relative state of two tracks that cross at one kilometre.
const RELATIVE: &[u8] = b"RELATIVE_POSITION_R = 1000.000000000 [m]
RELATIVE_POSITION_T = 0.000000000 [m]
RELATIVE_POSITION_N = 0.000000000 [m]
RELATIVE_VELOCITY_R = 0.000000000 [m/s]
RELATIVE_VELOCITY_T = -7500.000000000 [m/s]
RELATIVE_VELOCITY_N = 7500.000000000 [m/s]
";

/// The same in nm and nm/s.
const STATE: Rtn = Rtn {
    place: AxisValues {
        r: 1_000_000_000_000,
        t: 0,
        n: 0,
    },
    rate: AxisValues {
        r: 0,
        t: -7_500_000_000_000,
        n: 7_500_000_000_000,
    },
};

/// The least value, the greatest, and those next to zero.
const OUTERMOST: Rtn = Rtn {
    place: AxisValues {
        r: i64::MIN,
        t: i64::MAX,
        n: -1,
    },
    rate: AxisValues {
        r: 1,
        t: -999_999_999,
        n: 1_000_000_000,
    },
};

const OUTERMOST_LINES: &[u8] = b"RELATIVE_POSITION_R = -9223372036.854775808 [m]
RELATIVE_POSITION_T = 9223372036.854775807 [m]
RELATIVE_POSITION_N = -0.000000001 [m]
RELATIVE_VELOCITY_R = 0.000000001 [m/s]
RELATIVE_VELOCITY_T = -0.999999999 [m/s]
RELATIVE_VELOCITY_N = 1.000000000 [m/s]
";

/// Lines that do not begin with the key in their place.
const OTHER_KEYS: [(u32, &[u8]); 14] = [
    (7, b""),
    (7, b"RELATIVE_POSITION_R"),
    (7, b"RELATIVE_POSITION_R=1000.000000000 [m]"),
    (7, b"RELATIVE_POSITION_R =1000.000000000 [m]"),
    (7, b" RELATIVE_POSITION_R = 1000.000000000 [m]"),
    (7, b"RELATIVE_POSITION_T = 1000.000000000 [m]"),
    (7, b"RELATIVE_VELOCITY_R = 0.000000000 [m/s]"),
    (7, b"MISS_DISTANCE = 1000.000000000 [m]"),
    (8, b"RELATIVE_POSITION_N = 0.000000000 [m]"),
    (8, b"RELATIVE_POSITION_R = 1000.000000000 [m]"),
    (9, b"relative_position_n = 0.000000000 [m]"),
    (10, b"RELATIVE_SPEED_R = 0.000000000 [m/s]"),
    (12, b"START_SCREEN_PERIOD = 2025-01-01T00:00:00.000000"),
    (13, b"RELATIVE_VELOCITY_N = 7500.000000000 [m/s]"),
];

/// Lines whose value is not of the form in its place.
const BAD_VALUES: [(u32, &[u8]); 18] = [
    (7, b"RELATIVE_POSITION_R = "),
    (7, b"RELATIVE_POSITION_R =  1000.000000000 [m]"),
    (7, b"RELATIVE_POSITION_R = 1000.000000000"),
    (7, b"RELATIVE_POSITION_R = 1000.000000000 [m/s]"),
    (7, b"RELATIVE_POSITION_R = 1000.00000000 [m]"),
    (7, b"RELATIVE_POSITION_R = 1000.0000000000 [m]"),
    (7, b"RELATIVE_POSITION_R = 1000.000000000 [m] "),
    (7, b"RELATIVE_POSITION_R = +1000.000000000 [m]"),
    (7, b"RELATIVE_POSITION_R = 1.000000000 [km]"),
    (8, b"RELATIVE_POSITION_T = -0.000000000 [m]"),
    (8, b"RELATIVE_POSITION_T = 00.000000000 [m]"),
    (8, b"RELATIVE_POSITION_T = 9223372036.854775808 [m]"),
    (9, b"RELATIVE_POSITION_N = -9223372036.854775809 [m]"),
    (
        9,
        b"RELATIVE_POSITION_N = 99999999999999999999999999.999999999 [m]",
    ),
    (10, b"RELATIVE_VELOCITY_R = 0.000000000 [m]"),
    (10, b"RELATIVE_VELOCITY_R = 0.000000000 [km/s]"),
    (11, b"RELATIVE_VELOCITY_T = -7.5 [m/s]"),
    (12, b"RELATIVE_VELOCITY_N = 9223372036.854775808 [m/s]"),
];

/// Other lines that are taken.
const OTHER_VALUES: [(u32, &[u8]); 6] = [
    (6, b"MISS_DISTANCE = 0.000000000 [m]"),
    (7, b"RELATIVE_POSITION_R = 9223372036.854775807 [m]"),
    (8, b"RELATIVE_POSITION_T = -9223372036.854775808 [m]"),
    (9, b"RELATIVE_POSITION_N = -0.000000001 [m]"),
    (10, b"RELATIVE_VELOCITY_R = 9223372036.854775807 [m/s]"),
    (11, b"RELATIVE_VELOCITY_T = -9223372036.854775808 [m/s]"),
];

/// What a text is read as, where it is short enough.
fn read(alloc: Global, text: &[u8]) -> Option<Result<(Cdm, Option<Rtn>), CdmFault>> {
    if text.len() > u32::MAX as usize {
        return None;
    }
    Some(read_message(alloc, text))
}

/// The first fault of a text: its line, and its cause.
fn fault(alloc: Global, text: &[u8]) -> Option<(u32, CdmCause)> {
    match read(alloc, text) {
        Some(Err(CdmFault::At { line, cause })) => Some((line, cause)),
        _ => None,
    }
}

/// The text with these lines behind its first six.
fn with_lines(alloc: Global, text: &[u8], lines: &[u8]) -> Result<Vec<u8>, AllocError> {
    let mut changed = Vec::new(alloc);
    for (index, line) in text.split(|b| *b == b'\n').enumerate() {
        if index > 0 {
            changed.push(b'\n')?;
        }
        if index == 6 {
            changed.extend_from_slice(lines)?;
        }
        changed.extend_from_slice(line)?;
    }
    Ok(changed)
}

/// The message of two tracks that cross at one kilometre, with their relative state: 88 lines.
pub fn crossing_with(alloc: Global) -> Result<Vec<u8>, AllocError> {
    with_lines(alloc, &crossing(alloc)?, RELATIVE)
}

fn feeds(text: &[u8]) -> usize
    ensures { result ≡ count_by is_feed text.now }
{
    text.iter().filter(|b| **b == b'\n').count()
}

/// The text with the lines of a relative state, where it has six lines.
fn added(alloc: Global, text: &[u8], rtn: Rtn) -> Result<Option<Vec<u8>>, AllocError> {
    if feeds(text) < 6 {
        return Ok(None);
    }
    Ok(Some(add_lines(alloc, text, &rtn)?))
}

#[test]
fn six_lines_stand_behind_the_miss_distance(rt: HostRuntime) {
    let alloc = rt.alloc();
    let text = crossing(alloc).expect(&rt, "no fault");
    for (state, lines) in &[(STATE, RELATIVE), (OUTERMOST, OUTERMOST_LINES)] {
        let with = added(alloc, &text, *state).expect(&rt, "no fault");
        let expected = with_lines(alloc, &text, lines).expect(&rt, "no fault");
        assert_eq!(rt; with.as_deref(), Some(expected.as_slice()));
        assert_eq!(rt; feeds(&expected), 88);
    }
}

#[test]
fn lines_are_added_to_any_six(rt: HostRuntime) {
    let alloc = rt.alloc();
    for text in &[
        b"1\n2\n3\n4\n5\n6\n".as_slice(),
        b"\n\n\n\n\n\n7",
        b"\n\n\n\n\n\n\n\n",
    ] {
        let with = added(alloc, text, STATE).expect(&rt, "no fault");
        let expected = with_lines(alloc, text, RELATIVE).expect(&rt, "no fault");
        assert_eq!(rt; with.as_deref(), Some(expected.as_slice()));
    }
}

#[test]
fn the_message_is_read_with_its_relative_state(rt: HostRuntime) {
    let alloc = rt.alloc();
    let text = crossing(alloc).expect(&rt, "no fault");
    let message = crossing_read(alloc).expect(&rt, "no fault");
    assert_eq!(rt; read(alloc, &text), Some(Ok((message, None))));
    for (state, lines) in &[(STATE, RELATIVE), (OUTERMOST, OUTERMOST_LINES)] {
        let with = with_lines(alloc, &text, lines).expect(&rt, "no fault");
        let message = crossing_read(alloc).expect(&rt, "no fault");
        assert_eq!(rt; read(alloc, &with), Some(Ok((message, Some(*state)))));
    }
}

#[test]
fn read_cdm_takes_no_relative_state(rt: HostRuntime) {
    let alloc = rt.alloc();
    let text = crossing_with(alloc).expect(&rt, "no fault");
    if text.len() <= u32::MAX as usize {
        let key_at_7 = CdmFault::At {
            line: 7,
            cause: CdmCause::Key,
        };
        assert_eq!(rt; read_cdm(alloc, &text), Err(key_at_7));
    }
}

/// The first of these lines for which, in place of the one with its number, the text does not have this fault there.
fn first_wrong(
    alloc: Global,
    text: &[u8],
    lines: &[(u32, &[u8])],
    cause: Option<CdmCause>,
) -> Result<Option<usize>, AllocError> {
    for (i, (number, line)) in lines.iter().enumerate() {
        let changed = with_line(alloc, text, *number, line)?;
        if fault(alloc, &changed) != fault_at(*number, cause) {
            return Ok(Some(i));
        }
    }
    Ok(None)
}

#[test]
fn lines_with_other_keys_and_values(rt: HostRuntime) {
    let alloc = rt.alloc();
    let text = crossing_with(alloc).expect(&rt, "no fault");
    let keys = first_wrong(alloc, &text, &OTHER_KEYS, Some(CdmCause::Key));
    assert_eq!(rt; keys.expect(&rt, "no fault"), None);
    let values = first_wrong(alloc, &text, &BAD_VALUES, Some(CdmCause::Value));
    assert_eq!(rt; values.expect(&rt, "no fault"), None);
    let others = first_wrong(alloc, &text, &OTHER_VALUES, None);
    assert_eq!(rt; others.expect(&rt, "no fault"), None);
}

/// A fault of the key of this line.
fn key_at(line: u32) -> Option<(u32, CdmCause)> {
    Some((line, CdmCause::Key))
}

#[test]
fn five_lines_seven_lines_and_lines_exchanged(rt: HostRuntime) {
    let alloc = rt.alloc();
    let text = crossing(alloc).expect(&rt, "no fault");
    let [r, t, n, vr, vt, vn]: [&[u8]; 6] = [
        b"RELATIVE_POSITION_R = 1000.000000000 [m]\n",
        b"RELATIVE_POSITION_T = 0.000000000 [m]\n",
        b"RELATIVE_POSITION_N = 0.000000000 [m]\n",
        b"RELATIVE_VELOCITY_R = 0.000000000 [m/s]\n",
        b"RELATIVE_VELOCITY_T = -7500.000000000 [m/s]\n",
        b"RELATIVE_VELOCITY_N = 7500.000000000 [m/s]\n",
    ];
    let orders: [([&[u8]; 7], Option<(u32, CdmCause)>); 9] = [
        ([r, t, n, vr, vt, vn, b""], None),
        ([r, t, n, vr, vt, b"", b""], key_at(12)),
        ([r, t, n, vr, vt, vn, vn], key_at(13)),
        ([r, t, n, b"", b"", b"", b""], key_at(10)),
        ([r, b"", b"", b"", b"", b"", b""], key_at(8)),
        ([t, n, vr, vt, vn, b"", b""], key_at(7)),
        ([r, n, t, vr, vt, vn, b""], key_at(8)),
        ([r, t, n, vr, vn, vt, b""], key_at(11)),
        ([vr, vt, vn, r, t, n, b""], key_at(7)),
    ];
    for (lines, expected) in &orders {
        let mut some = Vec::new(alloc);
        for line in lines {
            some.extend_from_slice(line).expect(&rt, "no fault");
        }
        let changed = with_lines(alloc, &text, &some).expect(&rt, "no fault");
        assert_eq!(rt; fault(alloc, &changed), *expected);
    }
}

/// The first so many lines of a text, each with its end.
fn first_lines(alloc: Global, text: &[u8], count: usize) -> Result<Vec<u8>, AllocError> {
    let mut lines = Vec::new(alloc);
    for line in text.split(|b| *b == b'\n').take(count) {
        lines.extend_from_slice(line)?;
        lines.push(b'\n')?;
    }
    Ok(lines)
}

/// A text without its last byte.
fn without_end(text: &[u8]) -> &[u8] {
    match text {
        [front @ .., _] => front,
        [] => b"",
    }
}

#[test]
fn a_message_that_ends_behind_a_line(rt: HostRuntime) {
    let alloc = rt.alloc();
    let text = crossing_with(alloc).expect(&rt, "no fault");
    for number in 1..88_u32 {
        let lines = first_lines(alloc, &text, number as usize).expect(&rt, "no fault");
        let expected = Some((number + 1, CdmCause::End));
        assert_eq!(rt; fault(alloc, &lines), expected);
        assert_eq!(rt; fault(alloc, without_end(&lines)), expected);
    }
    assert_eq!(rt; fault(alloc, b""), Some((1, CdmCause::End)));
    assert_eq!(rt; fault(alloc, &text), None);
    assert_eq!(rt; fault(alloc, without_end(&text)), Some((89, CdmCause::End)));
    let longer = with_line(alloc, &text, 89, b"\n").expect(&rt, "no fault");
    assert_eq!(rt; fault(alloc, &longer), Some((89, CdmCause::End)));
}
