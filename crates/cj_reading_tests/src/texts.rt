//! Files for the tests.
use cj_oem::{Frame, Matrix, Node, OemCause, OemFault, Segment, Track, read_oem};
use cj_samples::{Change, HEAD, append_lines};
use std::alloc::{AllocError, Global};

/// The nodes of the first segment: their lines are 15 and 16.
const NODES: [&[u8]; 2] = [
    b"2025-01-01T00:00:00 7000 -225 0 0 7.5 0",
    b"2025-01-01T00:01:00 7000 225 0 0 7.5 0",
];

/// A further segment, which begins where the first one ends: its lines are 17 to 29.
const NEXT: [&[u8]; 13] = [
    b"META_START",
    b"OBJECT_NAME = SAT A",
    b"OBJECT_ID = 2025-001A",
    b"CENTER_NAME = EARTH",
    b"REF_FRAME = EME2000",
    b"TIME_SYSTEM = UTC",
    b"START_TIME = 2025-01-01T00:01:00",
    b"STOP_TIME = 2025-01-01T00:02:00",
    b"INTERPOLATION = HERMITE",
    b"INTERPOLATION_DEGREE = 3",
    b"META_STOP",
    b"2025-01-01T00:01:00 7100 0 0 0 0 0",
    b"2025-01-01T00:02:00 7100 0 0 0 0 0",
];

/// The file with one segment, with other texts in place of some lines.
pub fn base_with(alloc: Global, changes: &[Change]) -> Result<Vec<u8>, AllocError> {
    let mut text = Vec::new(alloc);
    append_lines(&mut text, 0, HEAD.as_slice(), changes)?;
    append_lines(&mut text, 14, NODES.as_slice(), changes)?;
    Ok(text)
}

/// The file with two segments, with other texts in place of some lines.
pub fn two_with(alloc: Global, changes: &[Change]) -> Result<Vec<u8>, AllocError> {
    let mut text = base_with(alloc, changes)?;
    append_lines(&mut text, 16, NEXT.as_slice(), changes)?;
    Ok(text)
}

/// The track of a short file.
pub fn read(alloc: Global, bytes: &[u8], as_hermite3: bool) -> Result<Track, OemFault> {
    if bytes.len() > 100_000 {
        return Err(OemFault::Memory);
    }
    read_oem(alloc, b"a.oem", bytes, as_hermite3)
}

/// The fault of a file with its line, none where it is accepted.
pub fn fault_in(alloc: Global, bytes: &[u8]) -> Result<Option<Fault>, OemFault> {
    fault_of(read(alloc, bytes, false))
}

pub fn fault_of(read: Result<Track, OemFault>) -> Result<Option<Fault>, OemFault> {
    match read {
        Ok(_) => Ok(None),
        Err(OemFault::At { line, cause }) => Ok(Some((line, cause))),
        Err(OemFault::Memory) => Err(OemFault::Memory),
    }
}

/// A fault with its line.
pub type Fault = (u32, OemCause);

/// A line's number, the text in its place, and the fault that the file then has.
pub type Case<'a> = (usize, &'a [u8], Option<Fault>);

/// Changes of several lines, and the fault that the file then has.
pub type Changed<'a> = (&'a [Change<'a>], Option<Fault>);

/// The fault of the file with one segment where one line is changed.
pub fn fault_with(alloc: Global, number: usize, changed: &[u8]) -> Result<Option<Fault>, OemFault> {
    let text = base_with(alloc, &[(number, changed)])?;
    fault_in(alloc, &text)
}

/// The first case in which the file with one segment does not have its fault.
pub fn wrong_in_base(alloc: Global, cases: &[Case]) -> Result<Option<usize>, OemFault> {
    for (i, (number, changed, fault)) in cases.iter().enumerate() {
        if fault_with(alloc, *number, changed)? != *fault {
            return Ok(Some(i));
        }
    }
    Ok(None)
}

/// The same where several lines are changed.
pub fn wrong_with(alloc: Global, cases: &[Changed]) -> Result<Option<usize>, OemFault> {
    for (i, (changes, fault)) in cases.iter().enumerate() {
        let text = base_with(alloc, changes)?;
        if fault_in(alloc, &text)? != *fault {
            return Ok(Some(i));
        }
    }
    Ok(None)
}

/// The same of the file with two segments.
pub fn wrong_in_two(alloc: Global, cases: &[Changed]) -> Result<Option<usize>, OemFault> {
    for (i, (changes, fault)) in cases.iter().enumerate() {
        let text = two_with(alloc, changes)?;
        if fault_in(alloc, &text)? != *fault {
            return Ok(Some(i));
        }
    }
    Ok(None)
}

/// Whether a track has this name, this designator and this frame.
pub fn is_of(track: &Track, name: &[u8], id: &[u8], frame: Frame) -> bool {
    track.name.as_slice() == name && track.id.as_slice() == id && track.frame == frame
}

fn segment_of(track: &Track, segment: usize) -> Option<&Segment> {
    track.segments.as_slice().get(segment)
}

/// The first and the last tick for which a segment is useable.
pub type Useable = (u64, u64);

fn useable_of(track: &Track, segment: usize) -> Option<Useable> {
    let segment = segment_of(track, segment)?;
    Some((segment.first.micros, segment.last.micros))
}

/// Whether a track has segments that are useable so, and no other.
pub fn has_useable(track: &Track, useable: &[Useable]) -> bool {
    for (i, ticks) in useable.iter().enumerate() {
        if useable_of(track, i) != Some(*ticks) {
            return false;
        }
    }
    track.segments.as_slice().len() == useable.len()
}

/// How many nodes and covariances a segment has.
pub fn counts_of(track: &Track, segment: usize) -> Option<(usize, usize)> {
    let segment = segment_of(track, segment)?;
    Some((
        segment.nodes.as_slice().len(),
        segment.matrices.as_slice().len(),
    ))
}

/// The tick of a node, and its place and its rate.
pub type Stated = (u64, [i64; 6]);

fn node_of(track: &Track, segment: usize, node: usize) -> Option<Stated> {
    let Node { at, p, v, .. } = *segment_of(track, segment)?.nodes.as_slice().get(node)?;
    Some((at.micros, [p.x, p.y, p.z, v.x, v.y, v.z]))
}

/// Whether the nodes of a segment begin with these.
pub fn begins_with(track: &Track, segment: usize, nodes: &[Stated]) -> bool {
    for (i, node) in nodes.iter().enumerate() {
        if node_of(track, segment, i) != Some(*node) {
            return false;
        }
    }
    true
}

fn matrix_of(track: &Track, segment: usize, matrix: usize) -> Option<&Matrix> {
    segment_of(track, segment)?.matrices.as_slice().get(matrix)
}

/// The tick of a covariance.
pub fn matrix_tick(track: &Track, segment: usize, matrix: usize) -> Option<u64> {
    Some(matrix_of(track, segment, matrix)?.at.micros)
}

/// A value's index in a covariance, its sign, its digits and its exponent.
pub type Valued = (usize, bool, u64, i32);

fn value_of(track: &Track, segment: usize, index: usize) -> Option<Valued> {
    let value = matrix_of(track, segment, 0)?.values.as_slice().get(index)?;
    Some((index, value.negative, value.digits, value.exponent))
}

/// Whether the first covariance of a segment has these values.
pub fn has_values(track: &Track, segment: usize, values: &[Valued]) -> bool {
    for value in values {
        if value_of(track, segment, value.0) != Some(*value) {
            return false;
        }
    }
    true
}
