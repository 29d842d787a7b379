//! Files of nodes, and which of the nodes are kept.
use cj_oem::{OemFault, Track, read_oem};
use cj_samples::{HEAD, append_lines};
use cj_thin::thin;
use std::alloc::Global;

/// The track of a short file.
pub fn read(alloc: Global, bytes: &[u8]) -> Result<Track, OemFault> {
    if bytes.len() > 100_000 {
        return Err(OemFault::Memory);
    }
    read_oem(alloc, b"a.oem", bytes, false)
}

/// The track of these nodes, useable from the start of 2025 to the tick of this line.
pub fn track_of(alloc: Global, stop: &[u8], nodes: &[&[u8]]) -> Result<Track, OemFault> {
    let mut text = Vec::new(alloc);
    append_lines(&mut text, 0, HEAD.as_slice(), &[(11, stop)])?;
    append_lines(&mut text, 14, nodes, &[])?;
    read(alloc, &text)
}

/// How many microseconds after the start of 2025 the nodes are that are kept within so many nm.
pub fn kept(alloc: Global, track: &Track, e: u64) -> Result<Vec<u64>, OemFault> {
    let mut ticks = Vec::new(alloc);
    if 1_000_000_000 <= e && e <= 1_000_000_000_000 {
        let thin = thin(alloc, track, e)?;
        for segment in thin.segments.as_slice() {
            for node in segment.nodes.as_slice() {
                ticks.push(node.at.micros.wrapping_sub(1_735_689_600_000_000))?;
            }
        }
    }
    Ok(ticks)
}
