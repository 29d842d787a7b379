//! Putting tracks with fewer nodes.
ghost use Rattle.std.specs.Prelude.{◌≡◌, ◌^◌, ◌≤◌, ◌++◌, ◌∷◌, [], List, Some, Ok, Err, All, IfErr, IfOk, codes, map};
ghost use Rattle.cj_case.specs.CaseLimits.{AreFewNodes};
ghost use Rattle.cj_inputs.specs.Alone.{plain_tracks};
ghost use Rattle.cj_inputs.specs.Readings.{nodes_in, nodes_of};
ghost use Rattle.cj_io.specs.Faults.{Rose};
ghost use Rattle.cj_io.specs.declared.file.FileBytes.{FileBytes};
ghost use Rattle.cj_outputs.specs.Findings.{ended};
ghost use Rattle.cj_outputs.specs.Outcome.{ComesOfPuts, Leaves};
ghost use Rattle.cj_outputs.specs.Thinned as spec;
ghost use Rattle.cj_thin.specs.Thinned.{thinned};
ghost use Rattle.cj_thin.specs.Within.{IsThinnerWithin};
ghost use Rattle.cj_track.specs.Segments.{node_count as the_count};
ghost use Rattle.cj_track.specs.Tracks.{plain_track};
ghost use Rattle.cj_words.specs.Commands.{plain_thinning};

use crate::putting::put;
use cj_inputs::{LoneTracks, node_count};
use cj_io::Shelf;
use cj_oem::oem_text;
use cj_status::Status;
use cj_thin::{nearness, thin};
use cj_track::Track;
use cj_words::Thinning;
use std::alloc::{AllocError, Global};

/// A metre in nm.
const METRE: u64 = 1_000_000_000;

/// How far an object may be from where it was, in nm.
fn length_of(thinning: &Thinning) -> u64
    ensures value { result ≡ spec.length_of (plain_thinning thinning.now) }
    ensures least { 10 ^ 9 ≤ result }
    ensures most { result ≤ 10 ^ 12 }
{
    thinning.within * METRE
}

/// Each of these tracks is, with fewer nodes, within the length of where it was: a law, for which none is made.
pub fn stays_within(lone: &LoneTracks, thinning: &Thinning)
    ensures law { All (λ t. IsThinnerWithin (spec.length_of (plain_thinning thinning.now)) t (thinned (spec.length_of (plain_thinning thinning.now)) t))
        (plain_tracks lone.now) }
{
    nearness(&lone.tracks, length_of(thinning));
}

/// Puts each track with fewer nodes, and then how many files there are, how many nodes they have, and how many are kept.
pub fn put_thinned<S: Shelf>(
    alloc: Global,
    shelf: &mut S,
    lone: &LoneTracks,
    thinning: &Thinning,
) -> Result<(), Status>
    ensures comes { IfErr result ComesOfPuts }
    ensures write { result ≡ Err Status.WriteFault → Rose (S.faults shelf.old) (S.faults shelf.new) }
    ensures leaves { (old : List FileBytes) → S.outputs shelf.old ≡ Some old
        → Leaves (ended result) (Ok (spec.outputs_with_fewer (spec.length_of (plain_thinning thinning.now)) (plain_tracks lone.now))) old (S.outputs shelf.new) }
    ensures later { S.faults shelf.old ≤ S.faults shelf.new }
{
    let kept = put_tracks(alloc, shelf, &lone.tracks, length_of(thinning))?;
    let text = counts_text(alloc, lone.tracks.len(), lone.nodes, kept)?;
    put(alloc, shelf, b"-", &text)
}

/// Puts tracks with fewer nodes, one after another, and answers how many nodes are kept.
fn put_tracks<S: Shelf>(
    alloc: Global,
    shelf: &mut S,
    tracks: &[Track],
    e: u64,
) -> Result<u64, Status>
    requires few { AreFewNodes tracks.now }
    requires least { 10 ^ 9 ≤ e }
    requires most { e ≤ 10 ^ 12 }
    ensures comes { IfErr result ComesOfPuts }
    ensures write { result ≡ Err Status.WriteFault → Rose (S.faults shelf.old) (S.faults shelf.new) }
    ensures kept { IfOk result (λ kept. kept ≡ nodes_in (map (thinned e) (map plain_track tracks.now))) }
    ensures put { (old : List FileBytes) → S.outputs shelf.old ≡ Some old
        → IfOk result (λ kept. S.outputs shelf.new ≡ Some (old ++ map (spec.thin_output e) (map plain_track tracks.now))) }
    ensures leaves { (old : List FileBytes) → S.outputs shelf.old ≡ Some old
        → IfErr result (λ s. Leaves s (Ok (map (spec.thin_output e) (map plain_track tracks.now))) old (S.outputs shelf.new)) }
    ensures later { S.faults shelf.old ≤ S.faults shelf.new }
{
    let mut kept = 0;
    for track in tracks {
        let more = put_track(alloc, shelf, track, e)?;
        kept += more;
    }
    Ok(kept)
}

/// Puts a track with fewer nodes, and answers how many it has.
fn put_track<S: Shelf>(alloc: Global, shelf: &mut S, track: &Track, e: u64) -> Result<u64, Status>
    requires least { 10 ^ 9 ≤ e }
    requires most { e ≤ 10 ^ 12 }
    ensures comes { IfErr result ComesOfPuts }
    ensures write { result ≡ Err Status.WriteFault → Rose (S.faults shelf.old) (S.faults shelf.new) }
    ensures kept { IfOk result (λ kept. kept ≡ nodes_of (thinned e (plain_track track.now))) }
    ensures fewer { IfOk result (λ kept. kept ≤ the_count track.now.segments) }
    ensures put { (old : List FileBytes) → S.outputs shelf.old ≡ Some old
        → IfOk result (λ kept. S.outputs shelf.new ≡ Some (old ++ spec.thin_output e (plain_track track.now) ∷ [])) }
    ensures leaves { (old : List FileBytes) → S.outputs shelf.old ≡ Some old
        → IfErr result (λ s. Leaves s (Ok (spec.thin_output e (plain_track track.now) ∷ [])) old (S.outputs shelf.new)) }
    ensures later { S.faults shelf.old ≤ S.faults shelf.new }
{
    let thin = thin(alloc, track, e)?;
    let name = thin_name(alloc, track.file.as_slice())?;
    let text = oem_text(alloc, &thin)?;
    put(alloc, shelf, &name, &text)?;
    Ok(node_count(&thin))
}

/// The name of the output for a file.
fn thin_name(alloc: Global, file: &[u8]) -> Result<Vec<u8>, AllocError>
    ensures { IfOk result (λ name. name.items ≡ file.now ++ codes ".thin") }
{
    let mut name = Vec::from_slice(alloc, file)?;
    name.extend_from_slice(b".thin")?;
    Ok(name)
}

/// What is counted, for standard output.
fn counts_text(alloc: Global, files: usize, read: u64, kept: u64) -> Result<Vec<u8>, AllocError>
    ensures { IfOk result (λ text. text.items ≡ spec.thinned_bytes files read kept) }
{
    let line = format!(in alloc; "THINNED {files} {read} {kept}\n")?;
    Ok(line.into_bytes())
}
