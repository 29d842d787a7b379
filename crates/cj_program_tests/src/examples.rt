//! What each cause shows as refused is refused with it, and what it shows as taken is taken.
use crate::lines::first_wrong;
use crate::usage_faults::{BAD_THRESHOLD, WORDS};
use cj_advice::{Advice, Cause, EVERY, FileReason, advice_on};
use cj_formats::{OemCause, PrimariesCause, SizesCause};
use cj_oem::{OemFault, read_oem};
use cj_sizes::{PrimariesFault, SizesFault, read_primaries, read_sizes};
use std::alloc::{AllocError, Global};
use std::panic::Expect;

/// Two segments with a covariance block between.
const USUAL: &str = "\
CCSDS_OEM_VERS = 2.0
CREATION_DATE = 2025-01-01T00:00:00
ORIGINATOR = OPS
META_START
OBJECT_NAME = SAT A
OBJECT_ID = 2025-001A
CENTER_NAME = EARTH
REF_FRAME = EME2000
TIME_SYSTEM = UTC
COMMENT MASS = 500
START_TIME = 2025-01-01T00:00:00
STOP_TIME = 2025-01-01T00:01:00
INTERPOLATION = HERMITE
INTERPOLATION_DEGREE = 3
META_STOP
2025-01-01T00:00:00 7000 -225 0 0 7.5 0
2025-01-01T00:01:00 7000 225 0 0 7.5 0
COVARIANCE_START
EPOCH = 2025-01-01T00:00:00
COV_REF_FRAME = RTN
1E-4
0 1E-4
0 0 1E-4
0 0 0 1E-10
0 0 0 0 1E-10
0 0 0 0 0 1E-10
COVARIANCE_STOP
META_START
OBJECT_NAME = SAT A
OBJECT_ID = 2025-001A
CENTER_NAME = EARTH
REF_FRAME = EME2000
TIME_SYSTEM = UTC
START_TIME = 2025-01-01T00:01:00
STOP_TIME = 2025-01-01T00:02:00
INTERPOLATION = HERMITE
INTERPOLATION_DEGREE = 3
META_STOP
2025-01-01T00:00:30 7000 0 0 0 7.5 0
2025-01-01T00:02:00 7000 675 0 0 7.5 0
";

/// One segment up to a leap second.
const LEAPING: &str = "\
CCSDS_OEM_VERS = 2.0
CREATION_DATE = 2016-12-31T00:00:00
ORIGINATOR = OPS
META_START
OBJECT_NAME = SAT A
OBJECT_ID = 2016-001A
CENTER_NAME = EARTH
REF_FRAME = EME2000
TIME_SYSTEM = UTC
START_TIME = 2016-12-31T23:59:00
STOP_TIME = 2016-12-31T23:59:59
INTERPOLATION = HERMITE
INTERPOLATION_DEGREE = 3
META_STOP
2016-12-31T23:59:00 7000 -225 0 0 7.5 0
2016-12-31T23:59:59 7000 217.5 0 0 7.5 0
";

const RADII: &str = "\
COMMENT hard-body radii
2025-001A 1.5
2025-002A 0.75
";

const FLEET: &str = "\
COMMENT our own
2025-001A
2025-001B
";

/// The designators of all objects.
const KNOWN: [&[u8]; 2] = [b"2025-001A", b"2025-001B"];

/// A text with `\xNN` as the byte that it writes.
fn with_bytes(alloc: Global, text: &[u8]) -> Result<Vec<u8>, AllocError> {
    let mut bytes = Vec::new(alloc);
    let mut rest = text;
    while let Some((first, behind)) = rest.split_first() {
        rest = match rest {
            [b'\\', b'x', b'C', b'4', after @ ..] => {
                bytes.push(0xC4)?;
                after
            }
            [b'\\', b'x', b'A', b'0', after @ ..] => {
                bytes.push(0xA0)?;
                after
            }
            _ => {
                bytes.push(*first)?;
                behind
            }
        };
    }
    Ok(bytes)
}

/// The text with the first place of what is right exchanged for what is wrong, none where it has none.
fn exchanged(alloc: Global, text: &str, advice: &Advice) -> Result<Option<Vec<u8>>, AllocError> {
    let Some((before, behind)) = text.split_once(advice.right) else {
        return Ok(None);
    };
    let mut bytes = Vec::from_slice(alloc, before.as_bytes())?;
    bytes.extend_from_slice(&with_bytes(alloc, advice.wrong.as_bytes())?)?;
    bytes.extend_from_slice(behind.as_bytes())?;
    Ok(Some(bytes))
}

/// With which cause an ephemeris of this name and text is refused.
fn oem_cause(alloc: Global, name: &[u8], text: &[u8]) -> Option<OemCause> {
    if text.len() > 10_000 {
        return None;
    }
    match read_oem(alloc, name, text, false) {
        Err(OemFault::At { cause, .. }) => Some(cause),
        _ => None,
    }
}

fn sizes_cause(alloc: Global, text: &[u8]) -> Option<SizesCause> {
    if text.len() > 10_000 {
        return None;
    }
    match read_sizes(alloc, text) {
        Err(SizesFault::At { cause, .. }) => Some(cause),
        _ => None,
    }
}

fn primaries_cause(alloc: Global, text: &[u8]) -> Option<PrimariesCause> {
    if text.len() > 10_000 {
        return None;
    }
    match read_primaries(alloc, KNOWN.as_slice(), text) {
        Err(PrimariesFault::At { cause, .. }) => Some(cause),
        _ => None,
    }
}

/// With which cause an ephemeris is refused that has what is wrong in place of what is right.
fn of_ephemeris(alloc: Global, advice: &Advice) -> Result<Option<OemCause>, AllocError> {
    let text = match exchanged(alloc, USUAL, advice)? {
        Some(text) => Some(text),
        None => exchanged(alloc, LEAPING, advice)?,
    };
    Ok(text.and_then(|text| oem_cause(alloc, b"a.oem", &text)))
}

/// A name without the end of its line.
fn named(line: &[u8]) -> &[u8] {
    match line {
        [name @ .., _] => name,
        [] => line,
    }
}

#[test]
fn the_files_are_taken(rt: HostRuntime) {
    let alloc = rt.alloc();
    for text in [USUAL, LEAPING] {
        assert!(rt; read_oem(alloc, b"a.oem", text.as_bytes(), false).is_ok());
    }
    assert!(rt; read_sizes(alloc, RADII.as_bytes()).is_ok());
    assert!(rt; read_primaries(alloc, KNOWN.as_slice(), FLEET.as_bytes()).is_ok());
}

#[test]
fn what_is_shown_of_ephemerides_is_refused_with_the_cause(rt: HostRuntime) {
    let alloc = rt.alloc();
    for cause in &EVERY {
        let Cause::File(FileReason::Oem(due)) = *cause else {
            continue;
        };
        let advice = advice_on(*cause);
        let found = if due == OemCause::Name {
            let wrong = with_bytes(alloc, advice.wrong.as_bytes()).expect(&rt, "no fault");
            let right = named(advice.right.as_bytes());
            assert_eq!(rt; oem_cause(alloc, right, USUAL.as_bytes()), None);
            oem_cause(alloc, named(&wrong), USUAL.as_bytes())
        } else {
            of_ephemeris(alloc, &advice).expect(&rt, "no fault")
        };
        assert_eq!(rt; found, Some(due));
    }
}

#[test]
fn what_is_shown_of_sizes_is_refused_with_the_cause(rt: HostRuntime) {
    let alloc = rt.alloc();
    for cause in &EVERY {
        let Cause::File(FileReason::Sizes(due)) = *cause else {
            continue;
        };
        let text = exchanged(alloc, RADII, &advice_on(*cause)).expect(&rt, "no fault");
        let found = text.and_then(|text| sizes_cause(alloc, &text));
        assert_eq!(rt; found, Some(due));
    }
}

#[test]
fn what_is_shown_of_primaries_is_refused_with_the_cause(rt: HostRuntime) {
    let alloc = rt.alloc();
    for cause in &EVERY {
        let Cause::File(FileReason::Primaries(due)) = *cause else {
            continue;
        };
        let text = exchanged(alloc, FLEET, &advice_on(*cause)).expect(&rt, "no fault");
        let found = text.and_then(|text| primaries_cause(alloc, &text));
        assert_eq!(rt; found, Some(due));
    }
}

/// The command line that stands in an example, without its first word and its end; none where lines of a file stand there.
fn shown_command(example: &str) -> Option<&str> {
    example
        .strip_prefix("conj ")
        .and_then(|line| line.strip_suffix("\n"))
}

/// What no run does is refused for its words or a value; what a run refuses is a command line as the one beside it.
#[test]
fn command_lines_that_are_shown_are_of_the_grammar_or_not(rt: HostRuntime) {
    for cause in &EVERY {
        let advice = advice_on(*cause);
        let due = match cause {
            Cause::Words => WORDS,
            Cause::Value => BAD_THRESHOLD,
            _ => None,
        };
        let shown = (shown_command(advice.wrong), shown_command(advice.right));
        if let (Some(wrong), Some(right)) = shown {
            let found = first_wrong(rt.alloc(), &[(wrong, due), (right, None)]);
            assert_eq!(rt; found.expect(&rt, "no fault"), None, "{cause:?}");
        }
    }
}
