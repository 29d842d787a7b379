//! Folders for the tests.
use crate::runs::file;
use cj_io::FileBytes;
use cj_samples::{HEAD, append_lines};
use std::alloc::{AllocError, Global};

/// Two nodes at rest: their lines are 15 and 16.
const NODES: [&[u8]; 2] = [
    b"2025-01-01T00:00:00 7000 0 0 0 0 0",
    b"2025-01-01T00:01:00 7000 0 0 0 0 0",
];

/// A further segment: its lines are 17 to 29.
const NEXT: [&[u8]; 13] = [
    b"META_START",
    b"OBJECT_NAME = SAT A",
    b"OBJECT_ID = 2025-001A",
    b"CENTER_NAME = EARTH",
    b"REF_FRAME = EME2000",
    b"TIME_SYSTEM = UTC",
    b"START_TIME = 2025-01-01T00:00:30",
    b"STOP_TIME = 2025-01-01T00:01:00",
    b"INTERPOLATION = HERMITE",
    b"INTERPOLATION_DEGREE = 3",
    b"META_STOP",
    b"2025-01-01T00:00:30 7100 0 0 0 0 0",
    b"2025-01-01T00:01:00 7100 0 0 0 0 0",
];

/// A line's number and the text in its place.
pub type Change = cj_samples::Change<'static>;

/// The line of another frame.
pub const GCRF: Change = (8, b"REF_FRAME = GCRF");

/// What a file holds.
#[derive(Clone, Copy)]
pub enum Content {
    /// An object at rest at this place for one minute.
    Rest(&'static str),
    /// An object that goes from one place and rate to another in one minute; some lines are changed.
    Minute(&'static str, &'static str, &'static [Change]),
    /// One segment, some lines of which are changed.
    One(&'static [Change]),
    /// Two segments, some lines of which are changed.
    Two(&'static [Change]),
    /// An object that goes from one place and rate to another in one minute, some lines changed, with these lines behind.
    Covered(&'static str, &'static str, &'static [Change], &'static str),
    /// The head of a file, some lines changed, and these nodes.
    Nodes(&'static [Change], &'static str),
    /// This text.
    Text(&'static str),
}

/// The files of a folder with their names, in the folder's order.
pub type Scene = &'static [(&'static str, Content)];

/// Two tracks that cross at one kilometre in the middle of a minute.
pub const CROSSING: Scene = &[
    (
        "a.oem",
        Content::Minute("7000 -225 0 0 7.5 0", "7000 225 0 0 7.5 0", &[]),
    ),
    (
        "b.oem",
        Content::Minute("7001 0 -225 0 0 7.5", "7001 0 225 0 0 7.5", &[]),
    ),
];

/// A covariance at the first tick, of three elements and zeros.
pub const COVARIANCE: &str = "COVARIANCE_START
EPOCH = 2025-01-01T00:00:00
COV_REF_FRAME = RTN
3.3313494e-04
4.6189273e-04 6.7824216e-04
0 0 0
0 0 0 0
0 0 0 0 0
0 0 0 0 0 0
COVARIANCE_STOP
";

/// A covariance at the first tick, of one element and zeros.
pub const OF_ONE_ELEMENT: &str = "COVARIANCE_START
EPOCH = 2025-01-01T00:00:00
COV_REF_FRAME = RTN
1
0 0
0 0 0
0 0 0 0
0 0 0 0 0
0 0 0 0 0 0
COVARIANCE_STOP
";

/// The same crossing of objects that have a covariance each.
pub const COVERED: Scene = &[
    (
        "a.oem",
        Content::Covered("7000 -225 0 0 7.5 0", "7000 225 0 0 7.5 0", &[], COVARIANCE),
    ),
    (
        "b.oem",
        Content::Covered(
            "7001 0 -225 0 0 7.5",
            "7001 0 225 0 0 7.5",
            &[(5, b"OBJECT_NAME = SAT B"), (6, b"OBJECT_ID = 2025-002A")],
            OF_ONE_ELEMENT,
        ),
    ),
];

/// Two objects at the threshold; the first file asks for a polynomial of degree seven.
pub const OF_DEGREE_SEVEN: Scene = &[
    (
        "a.oem",
        Content::One(&[
            (12, b"INTERPOLATION = LAGRANGE"),
            (13, b"INTERPOLATION_DEGREE = 7"),
        ]),
    ),
    ("b.oem", Content::Rest("7005 0 0")),
];

/// Two objects at the threshold whose useable spans share the tick in the middle of the minute.
pub const SHARING_ONE_TICK: Scene = &[
    (
        "a.oem",
        Content::Minute(
            "7000 0 0 0 0 0",
            "7000 0 0 0 0 0",
            &[(
                11,
                b"STOP_TIME = 2025-01-01T00:01:00\nUSEABLE_STOP_TIME = 2025-01-01T00:00:30",
            )],
        ),
    ),
    (
        "b.oem",
        Content::Minute(
            "7005 0 0 0 0 0",
            "7005 0 0 0 0 0",
            &[(
                11,
                b"STOP_TIME = 2025-01-01T00:01:00\nUSEABLE_START_TIME = 2025-01-01T00:00:30",
            )],
        ),
    ),
];

/// The files of a folder.
pub fn files_of(alloc: Global, scene: Scene) -> Result<Vec<FileBytes>, AllocError> {
    let mut files = Vec::new(alloc);
    for (name, content) in scene {
        files.push(file_of(alloc, name, *content)?)?;
    }
    Ok(files)
}

fn file_of(alloc: Global, name: &str, content: Content) -> Result<FileBytes, AllocError> {
    let mut text = Vec::new(alloc);
    append(alloc, &mut text, content)?;
    file(alloc, name.as_bytes(), &text)
}

/// Appends what a file holds.
fn append(alloc: Global, text: &mut Vec<u8>, content: Content) -> Result<(), AllocError> {
    match content {
        Content::Rest(place) => append_rest(alloc, text, place),
        Content::Minute(first, last, changes) => append_minute(alloc, text, first, last, changes),
        Content::One(changes) => append_one(text, changes),
        Content::Covered(first, last, changes, behind) => {
            append_minute(alloc, text, first, last, changes)?;
            text.extend_from_slice(behind.as_bytes())
        }
        Content::Two(changes) => {
            append_one(text, changes)?;
            append_lines(text, 16, NEXT.as_slice(), changes)
        }
        Content::Nodes(changes, nodes) => {
            append_lines(text, 0, HEAD.as_slice(), changes)?;
            text.extend_from_slice(nodes.as_bytes())
        }
        Content::Text(whole) => text.extend_from_slice(whole.as_bytes()),
    }
}

/// Appends the lines of one segment with other texts in place of some.
fn append_one(text: &mut Vec<u8>, changes: &[Change]) -> Result<(), AllocError> {
    append_lines(text, 0, HEAD.as_slice(), changes)?;
    append_lines(text, 14, NODES.as_slice(), changes)
}

/// Appends one segment from one place and rate to another.
fn append_minute(
    alloc: Global,
    text: &mut Vec<u8>,
    first: &str,
    last: &str,
    changes: &[Change],
) -> Result<(), AllocError> {
    append_lines(text, 0, HEAD.as_slice(), changes)?;
    let states = format!(in alloc; "2025-01-01T00:00:00 {first}\n2025-01-01T00:01:00 {last}\n")?;
    text.extend_from_slice(states.as_bytes())
}

/// Appends one segment at rest at a place.
fn append_rest(alloc: Global, text: &mut Vec<u8>, place: &str) -> Result<(), AllocError> {
    let state = format!(in alloc; "{place} 0 0 0")?;
    append_minute(alloc, text, state.as_str(), state.as_str(), &[])
}

/// So many files of the same name.
pub fn copies(alloc: Global, count: usize, bytes: &[u8]) -> Result<Vec<FileBytes>, AllocError> {
    let mut files = Vec::new(alloc);
    for _ in 0..count {
        files.push(file(alloc, b"a.oem", bytes)?)?;
    }
    Ok(files)
}

/// The text of a file of one segment.
pub fn base_text(alloc: Global) -> Result<Vec<u8>, AllocError> {
    let mut text = Vec::new(alloc);
    append_one(&mut text, &[])?;
    Ok(text)
}
