//! Beginning to put outputs onto a shelf, and putting one: whole, in parts, or while it is made.
ghost use Rattle.std.specs.Prelude.{◌≡◌, ◌≤◌, List, [], ◌∷◌, Some, Ok, Err, IfErr};
ghost use Rattle.cj_io.specs.Faults.{Rose};
ghost use Rattle.cj_io.specs.Parts.{joined};
ghost use Rattle.cj_io.specs.declared.file.FileBytes.{FileBytes};
ghost use Rattle.cj_outputs.specs.Findings.{ended};
ghost use Rattle.cj_outputs.specs.Outcome.{ComesOfPuts, Leaves, output};

use cj_io::{PartSource, Shelf, StreamShelf};
use cj_status::Status;
use std::alloc::Global;
use std::thread::Threads;

/// Begins to put the outputs of a run.
pub fn begin<S: Shelf>(alloc: Global, shelf: &mut S) -> Result<(), Status>
    ensures comes { IfErr result ComesOfPuts }
    ensures write { result ≡ Err Status.WriteFault → Rose (S.faults shelf.old) (S.faults shelf.new) }
    ensures refused { result ≡ Err Status.WriteFault → Rose (S.refusals shelf.old) (S.refusals shelf.new) }
    ensures outputs { S.outputs shelf.new ≡ S.outputs shelf.old }
    ensures later { S.faults shelf.old ≤ S.faults shelf.new }
{
    Ok(shelf.begin(alloc)?)
}

/// Puts one output.
pub fn put<S: Shelf>(alloc: Global, shelf: &mut S, name: &[u8], bytes: &[u8]) -> Result<(), Status>
    ensures comes { IfErr result ComesOfPuts }
    ensures write { result ≡ Err Status.WriteFault → Rose (S.faults shelf.old) (S.faults shelf.new) }
    ensures leaves { (old : List FileBytes) → S.outputs shelf.old ≡ Some old → Leaves (ended result) (Ok (output name.now bytes.now ∷ [])) old (S.outputs shelf.new) }
    ensures later { S.faults shelf.old ≤ S.faults shelf.new }
{
    Ok(shelf.put(alloc, name, bytes)?)
}

/// Puts one output whose bytes come in parts, one behind another.
pub fn put_parts<S: Shelf>(
    alloc: Global,
    shelf: &mut S,
    name: &[u8],
    parts: &[Vec<u8>],
) -> Result<(), Status>
    ensures comes { IfErr result ComesOfPuts }
    ensures write { result ≡ Err Status.WriteFault → Rose (S.faults shelf.old) (S.faults shelf.new) }
    ensures leaves { (old : List FileBytes) → S.outputs shelf.old ≡ Some old → Leaves (ended result) (Ok (output name.now (joined parts.now) ∷ [])) old (S.outputs shelf.new) }
    ensures later { S.faults shelf.old ≤ S.faults shelf.new }
{
    Ok(shelf.put_parts(alloc, name, parts)?)
}

/// Puts one output of the bytes that the source still has to make.
pub fn put_made<R: Threads + Sync, S: StreamShelf, M: PartSource>(
    rt: &R,
    alloc: Global,
    shelf: &mut S,
    name: &[u8],
    source: &mut M,
) -> Result<(), Status>
    ensures comes { IfErr result ComesOfPuts }
    ensures write { result ≡ Err Status.WriteFault → Rose (S.faults shelf.old) (S.faults shelf.new) }
    ensures leaves { (old : List FileBytes) → S.outputs shelf.old ≡ Some old → Leaves (ended result) (Ok (output name.now (M.rest source.old) ∷ [])) old (S.outputs shelf.new) }
    ensures later { S.faults shelf.old ≤ S.faults shelf.new }
{
    Ok(shelf.put_made(rt, alloc, name, source)?)
}
