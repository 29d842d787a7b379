//! Texts of ephemerides, line by line, some lines changed.
use std::alloc::AllocError;

/// The lines of a file in front of its nodes, which are two and a minute apart.
pub const HEAD: [&[u8]; 14] = [
    b"CCSDS_OEM_VERS = 2.0",
    b"CREATION_DATE = 2025-01-01T00:00:00",
    b"ORIGINATOR = TEST",
    b"META_START",
    b"OBJECT_NAME = SAT A",
    b"OBJECT_ID = 2025-001A",
    b"CENTER_NAME = EARTH",
    b"REF_FRAME = EME2000",
    b"TIME_SYSTEM = UTC",
    b"START_TIME = 2025-01-01T00:00:00",
    b"STOP_TIME = 2025-01-01T00:01:00",
    b"INTERPOLATION = HERMITE",
    b"INTERPOLATION_DEGREE = 3",
    b"META_STOP",
];

/// A line's number and the text in its place.
pub type Change<'a> = (usize, &'a [u8]);

/// Appends lines, which are numbered on from those before them, some of them changed.
pub fn append_lines(
    text: &mut Vec<u8>,
    before: usize,
    lines: &[&[u8]],
    changes: &[Change],
) -> Result<(), AllocError> {
    for (i, line) in lines.iter().enumerate() {
        let mut line = *line;
        for (number, changed) in changes {
            if *number > before && *number - before - 1 == i {
                line = *changed;
            }
        }
        text.extend_from_slice(line)?;
        text.push(b'\n')?;
    }
    Ok(())
}
