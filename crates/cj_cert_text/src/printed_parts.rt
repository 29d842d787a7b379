//! Lists of lines as text, by parts that several threads take.
ghost use Rattle.std.specs.Prelude.{◌≡◌, ◌<◌, ◌++◌, IfOk, OnOk, flat_map, length};
ghost use Rattle.cj_io.specs.Parts.{joined};

use crate::printed_line::PrintedLine;
use cj_formats::CertVersion;
use cj_threads::{Nobody, map_parts};
use std::alloc::{AllocError, Global};
use std::thread::Threads;

/// So many lines at least are a part of a list that is printed at once.
const LEAST_PART: usize = 4_096;

/// So many parts for each worker.
pub(crate) const PARTS_A_WORKER: usize = 4;

/// Adds the text of lines in order, in parts that as many threads as there are workers take.
pub(crate) fn push_lines<R: Threads + Sync, L: PrintedLine + Sync>(
    rt: &R,
    alloc: Global,
    parts: &mut Vec<Vec<u8>>,
    version: CertVersion,
    lines: &[L],
    workers: u32,
) -> Result<(), AllocError>
    ensures { OnOk result (joined parts.new.items ≡ joined parts.old.items ++ flat_map (L.text_by version) lines.now) }
{
    let size = part_size(lines.len(), workers);
    push_parted(rt, alloc, parts, version, lines, size, workers)
}

/// Adds the text of lines in order, in parts of so many lines, which as many threads as there are workers take.
pub(crate) fn push_parted<R: Threads + Sync, L: PrintedLine + Sync>(
    rt: &R,
    alloc: Global,
    parts: &mut Vec<Vec<u8>>,
    version: CertVersion,
    lines: &[L],
    size: usize,
    workers: u32,
) -> Result<(), AllocError>
    ensures value { OnOk result (joined parts.new.items ≡ joined parts.old.items ++ flat_map (L.text_by version) lines.now) }
    ensures some { OnOk result (0 < length parts.new.items) }
{
    let print = |part: &[L]| -> Result<Vec<u8>, AllocError>
        ensures { IfOk result (λ text. text.items ≡ flat_map (L.text_by version) part.now) }
    { part_text(alloc, version, part) };
    let mut texts = map_parts(
        rt,
        alloc,
        lines,
        size.max(1),
        workers as usize,
        &Nobody,
        &print,
    )?;
    parts.append(&mut texts)?;
    Ok(())
}

/// How many lines stand in each part but the last, so that there are some for each worker, where they are enough.
fn part_size(count: usize, workers: u32) -> usize {
    let most = PARTS_A_WORKER.saturating_mul(workers.max(1) as usize);
    count.div_ceil(most).max(LEAST_PART)
}

/// The text of some lines.
fn part_text<L: PrintedLine>(
    alloc: Global,
    version: CertVersion,
    part: &[L],
) -> Result<Vec<u8>, AllocError>
    ensures { IfOk result (λ text. text.items ≡ flat_map (L.text_by version) part.now) }
{
    let mut text = Vec::with_capacity(alloc, room_of(part))?;
    push_in_turn(&mut text, version, part)?;
    Ok(text)
}

/// How many bytes the text of some lines has at most.
fn room_of<L: PrintedLine>(part: &[L]) -> usize {
    let mut room: usize = 0;
    for line in part {
        room = room.saturating_add(line.room());
    }
    room
}

/// Adds lines, one after another.
pub(crate) fn push_in_turn<L: PrintedLine>(
    text: &mut Vec<u8>,
    version: CertVersion,
    lines: &[L],
) -> Result<(), AllocError>
    ensures { OnOk result (text.new.items ≡ text.old.items ++ flat_map (L.text_by version) lines.now) }
{
    for line in lines {
        line.push_onto(text, version)?;
    }
    Ok(())
}
