//! Files of nodes.
use cj_base::Tick;
use cj_oem::{OemFault, Track, read_oem};
use cj_samples::{HEAD, append_lines};
use std::alloc::Global;

/// The track of a short file.
pub fn read(alloc: Global, bytes: &[u8]) -> Result<Track, OemFault> {
    if bytes.len() > 100_000 {
        return Err(OemFault::Memory);
    }
    read_oem(alloc, b"a.oem", bytes, false)
}

/// The track of these nodes, useable from the tick of one line to that of another.
pub fn track_of(
    alloc: Global,
    start: &[u8],
    stop: &[u8],
    nodes: &[&[u8]],
) -> Result<Track, OemFault> {
    let mut text = Vec::new(alloc);
    append_lines(&mut text, 0, HEAD.as_slice(), &[(10, start), (11, stop)])?;
    append_lines(&mut text, 14, nodes, &[])?;
    read(alloc, &text)
}

/// How many microseconds after the start of 2025 a tick is.
pub fn micros_after(at: Tick) -> u64 {
    at.micros.wrapping_sub(1_735_689_600_000_000)
}
