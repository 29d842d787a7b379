ghost use Rattle.std.specs.Prelude.{◌≡◌, ◌++◌, IfOk, OnOk, codes};
ghost use Rattle.cj_report.specs.Counts.{tally_of};
ghost use Rattle.cj_report.specs.Summary as spec;
ghost use Rattle.cj_report.specs.Summary.{count_line, kept_line, summary_of, uncovered_line};

use crate::counts::Counts;
use crate::lines::push_line;
use itoa::Buffer;
use std::alloc::{AllocError, Global};

/// The summary of a run: twelve lines, each a word and a number.
pub fn summary_text(alloc: Global, counts: &Counts) -> Result<Vec<u8>, AllocError>
    ensures { IfOk result (λ text. text.items ≡ summary_of (tally_of counts.now)) }
{
    let mut text = Vec::with_capacity(alloc, ROOM)?;
    push_objects_and_pairs(&mut text, counts)?;
    push_cells(&mut text, counts)?;
    push_count(&mut text, b"ENCOUNTERS", counts.encounters)?;
    push_count(&mut text, b"MESSAGES", counts.messages)?;
    Ok(text)
}

/// The summary of the pairs that are not unchanged alone: three lines.
pub fn changed_summary_text(
    alloc: Global,
    objects: u64,
    encounters: u64,
    kept: u64,
) -> Result<Vec<u8>, AllocError>
    ensures { IfOk result (λ text. text.items ≡ spec.changed_summary objects encounters kept) }
{
    let mut text = Vec::with_capacity(alloc, ROOM)?;
    push_count(&mut text, b"OBJECTS", objects)?;
    push_count(&mut text, b"ENCOUNTERS", encounters)?;
    push_kept(&mut text, kept)?;
    Ok(text)
}

/// Adds the line behind a summary that tells how many objects do not cover the whole window.
pub fn push_uncovered(text: &mut Vec<u8>, count: u64) -> Result<(), AllocError>
    ensures { OnOk result (text.new.items ≡ text.old.items ++ uncovered_line count) }
{
    push_count(text, b"UNCOVERED", count)
}

/// Adds the line behind the summary of a screening again: how many pairs are kept and unchanged.
pub fn push_kept(text: &mut Vec<u8>, kept: u64) -> Result<(), AllocError>
    ensures { OnOk result (text.new.items ≡ text.old.items ++ kept_line kept) }
{
    push_count(text, b"KEPT", kept)
}

/// Enough for twelve lines of the longest word and number.
const ROOM: usize = 12 * 32;

fn push_objects_and_pairs(text: &mut Vec<u8>, counts: &Counts) -> Result<(), AllocError>
    ensures { OnOk result (text.new.items ≡ text.old.items
        ++ (count_line (codes "OBJECTS") counts.now.objects ++ count_line (codes "PAIRS") counts.now.pairs
        ++ count_line (codes "PARTED") counts.now.parted ++ count_line (codes "TOUCHING") counts.now.touching)) }
{
    push_count(text, b"OBJECTS", counts.objects)?;
    push_count(text, b"PAIRS", counts.pairs)?;
    push_count(text, b"PARTED", counts.parted)?;
    push_count(text, b"TOUCHING", counts.touching)
}

fn push_cells(text: &mut Vec<u8>, counts: &Counts) -> Result<(), AllocError>
    ensures { OnOk result (text.new.items ≡ text.old.items
        ++ (count_line (codes "ROOTS") counts.now.roots ++ count_line (codes "SPLITS") counts.now.splits
        ++ count_line (codes "LEAVES") counts.now.leaves ++ count_line (codes "FAR") counts.now.far
        ++ count_line (codes "NEAR") counts.now.near ++ count_line (codes "UNDECIDED") counts.now.undecided)) }
{
    push_count(text, b"ROOTS", counts.roots)?;
    push_count(text, b"SPLITS", counts.splits)?;
    push_count(text, b"LEAVES", counts.leaves)?;
    push_count(text, b"FAR", counts.far)?;
    push_count(text, b"NEAR", counts.near)?;
    push_count(text, b"UNDECIDED", counts.undecided)
}

fn push_count(text: &mut Vec<u8>, word: &[u8], count: u64) -> Result<(), AllocError>
    ensures { OnOk result (text.new.items ≡ text.old.items ++ count_line word.now count) }
{
    push_line(text, word, &[Buffer::new().format(count).as_bytes()])
}
