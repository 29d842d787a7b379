//! The text of a run's certificate, batch by batch.
ghost use Rattle.std.specs.Prelude.{◌≡◌, ◌<◌, ◌≤◌, ◌++◌, [], IfOk, OnOk, drop, flat_map, length};
ghost use Rattle.cj_formats.specs.declared.cert_version.CertVersion.TheVariants.{One};
ghost use Rattle.cj_io.specs.Parts.{joined};
ghost use Rattle.cj_cert_text.specs.TextLeft.{count_left, text_left};

use crate::object_boxes::ObjectBoxes;
use crate::printed_line::PrintedLine;
use crate::printed_parts::{PARTS_A_WORKER, push_parted};
use cj_case::Leaf;
use cj_cert::ShellLine;
use cj_formats::CertVersion;
use cj_io::PartSource;
use std::alloc::{AllocError, Global};
use std::mem::replace;
use std::thread::Threads;

/// So many lines of shells, boxes or cells are made at a time for each worker: two megabytes of text, so that what waits to be written takes little memory.
const LINES_A_WORKER: usize = 16_384;

/// The text of a certificate in version 1 or in brief, of which a front may be made already: of each list so many lines as were counted.
/// Its parts are made by as many threads as there are workers, each of which takes the next part.
#[derive(Drop)]
pub struct CertificateText<'a> {
    pub(crate) workers: u32,
    /// The text of the first four lines, and in brief of the sizes and the primaries, until it is handed out.
    pub(crate) head: Vec<u8>,
    pub(crate) shells: Vec<ShellLine>,
    pub(crate) shells_made: usize,
    /// In brief there are none.
    pub(crate) boxes: Vec<ObjectBoxes<'a>>,
    pub(crate) boxes_made: usize,
    pub(crate) slots: u32,
    pub(crate) leaves: &'a [Leaf],
    pub(crate) leaves_made: usize,
    /// The text of the last line, until it is handed out.
    pub(crate) end: Vec<u8>,
}

impl PartSource for CertificateText<'_> {
    ghost rest = { text_left };

    ghost left = { count_left };

    fn next_parts<R: Threads + Sync>(
        &mut self,
        rt: &R,
        alloc: Global,
    ) -> Result<Vec<Vec<u8>>, AllocError> {
        if !self.head.is_empty() {
            return one_part(alloc, &mut self.head);
        }
        let workers = self.workers;
        if self.shells_made < self.shells.len() {
            let made = &mut self.shells_made;
            return next_texts(rt, alloc, &self.shells, made, LINES_A_WORKER, workers);
        }
        if self.boxes_made < self.boxes.len() {
            let made = &mut self.boxes_made;
            let share = objects_a_worker(self.slots);
            return next_texts(rt, alloc, &self.boxes, made, share, workers);
        }
        if self.leaves_made < self.leaves.len() {
            let made = &mut self.leaves_made;
            return next_texts(rt, alloc, self.leaves, made, LINES_A_WORKER, workers);
        }
        if !self.end.is_empty() {
            return one_part(alloc, &mut self.end);
        }
        Ok(Vec::new(alloc))
    }

    fn is_shared(&self) -> bool {
        self.workers > 1
    }
}

/// A text as the only part; nothing is left of it.
fn one_part(alloc: Global, text: &mut Vec<u8>) -> Result<Vec<Vec<u8>>, AllocError>
    ensures parts { IfOk result (λ parts. joined parts.items ≡ text.old.items) }
    ensures some { IfOk result (λ parts. 0 < length parts.items) }
    ensures taken { text.new.items ≡ [] }
{
    let part = replace(text, Vec::new(alloc));
    let mut parts = Vec::new(alloc);
    parts.push(part)?;
    Ok(parts)
}

/// How many objects have some `LINES_A_WORKER` boxes in so many slots.
fn objects_a_worker(slots: u32) -> usize
    ensures { 0 < result }
{
    (LINES_A_WORKER / slots.max(1) as usize).max(1)
}

/// The texts of the next lines, a share of so many for each worker at most and some parts a share. They count as made then.
fn next_texts<R: Threads + Sync, L: PrintedLine + Sync>(
    rt: &R,
    alloc: Global,
    lines: &[L],
    made: &mut usize,
    share: usize,
    workers: u32,
) -> Result<Vec<Vec<u8>>, AllocError>
    requires share { 0 < share }
    requires left { made.old < length lines.now }
    ensures parts { IfOk result (λ parts. flat_map (L.text_by One) (drop made.old lines.now) ≡ joined parts.items ++ flat_map (L.text_by One) (drop made.new lines.now)) }
    ensures some { IfOk result (λ parts. 0 < length parts.items) }
    ensures further { OnOk result (made.old < made.new) }
{
    let end = batch_end(*made, lines.len(), share, workers);
    let size = share.div_ceil(PARTS_A_WORKER);
    let mut parts = Vec::new(alloc);
    push_parted(
        rt,
        alloc,
        &mut parts,
        CertVersion::One,
        &lines[*made..end],
        size,
        workers,
    )?;
    *made = end;
    Ok(parts)
}

/// Where the batch ends that begins at this place: a share of so many lines behind it for each worker, and at the last line at most.
fn batch_end(first: usize, count: usize, share: usize, workers: u32) -> usize
    requires share { 0 < share }
    requires left { first < count }
    ensures some { first < result }
    ensures within { result ≤ count }
{
    let most = share.saturating_mul(workers.max(1) as usize);
    first.saturating_add(most).min(count)
}
