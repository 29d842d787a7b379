//! Putting a made-up catalogue onto a shelf.
ghost use Rattle.std.specs.Prelude.{◌≡◌, ◌≤◌, List, Some, Ok, Err, IfErr, IfOk};
ghost use Rattle.cj_io.specs.Faults.{Rose};
ghost use Rattle.cj_io.specs.declared.file.FileBytes.{FileBytes};
ghost use Rattle.cj_outputs.specs.Findings.{ended};
ghost use Rattle.cj_outputs.specs.Outcome.{ComesOfPuts, Leaves, count_bytes, outputs_made};

use crate::putting::put;
use cj_io::{FileBytes, Shelf};
use cj_status::Status;
use std::alloc::{AllocError, Global};

/// Puts the files of a catalogue, and then how many there are.
pub fn put_catalogue<S: Shelf>(
    alloc: Global,
    shelf: &mut S,
    files: &[FileBytes],
) -> Result<(), Status>
    ensures comes { IfErr result ComesOfPuts }
    ensures write { result ≡ Err Status.WriteFault → Rose (S.faults shelf.old) (S.faults shelf.new) }
    ensures leaves { (old : List FileBytes) → S.outputs shelf.old ≡ Some old → Leaves (ended result) (Ok (outputs_made files.now)) old (S.outputs shelf.new) }
    ensures later { S.faults shelf.old ≤ S.faults shelf.new }
{
    let text = count_text(alloc, files.len())?;
    put_files(alloc, shelf, files)?;
    put(alloc, shelf, b"-", &text)
}

/// Puts files one after another.
fn put_files<S: Shelf>(alloc: Global, shelf: &mut S, files: &[FileBytes]) -> Result<(), Status>
    ensures comes { IfErr result ComesOfPuts }
    ensures write { result ≡ Err Status.WriteFault → Rose (S.faults shelf.old) (S.faults shelf.new) }
    ensures leaves { (old : List FileBytes) → S.outputs shelf.old ≡ Some old → Leaves (ended result) (Ok files.now) old (S.outputs shelf.new) }
    ensures later { S.faults shelf.old ≤ S.faults shelf.new }
{
    for file in files {
        put(alloc, shelf, file.name.as_slice(), file.bytes.as_slice())?;
    }
    Ok(())
}

/// How many files were made, for standard output.
fn count_text(alloc: Global, count: usize) -> Result<Vec<u8>, AllocError>
    ensures { IfOk result (λ text. text.items ≡ count_bytes count) }
{
    let digits = format!(in alloc; "{count}")?;
    let mut text = Vec::new(alloc);
    text.extend_from_slice(b"GENERATED ")?;
    text.extend_from_slice(digits.as_bytes())?;
    text.push(b'\n')?;
    Ok(text)
}
