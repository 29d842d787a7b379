//! What is found of the pairs that are not unchanged, and how it is put.
ghost use Rattle.std.specs.Prelude.{◌≡◌, ◌≤◌, List, [], ◌∷◌, Some, Ok, Err, IfErr};
ghost use Rattle.cj_io.specs.Faults.{Rose};
ghost use Rattle.cj_io.specs.declared.file.FileBytes.{FileBytes};
ghost use Rattle.cj_outputs.specs.Changes.{AreChanges, changed_in, changed_outputs_in, changed_summary_in};
ghost use Rattle.cj_outputs.specs.Findings.{ended};
ghost use Rattle.cj_outputs.specs.Outcome.{ComesOfPuts, Leaves};

use crate::coverage::push_coverage;
use crate::meetings::Meetings;
use crate::putting::put;
use cj_case::{Leaf, Problem};
use cj_io::Shelf;
use cj_report::{Tells, changed_summary_text, changed_text};
use cj_status::Status;
use std::alloc::Global;

/// What is found of the pairs of a problem that are not unchanged.
#[derive(Drop)]
pub struct Changes {
    pub problem: Problem,
    /// What the report tells beside the encounters.
    pub tells: Tells,
    /// The leaves of these pairs, in order of pair and time.
    pub leaves: Vec<Leaf>,
    /// Their encounters.
    pub met: Meetings,
    /// How many of the other pairs are kept.
    pub kept: u64,
}

/// Puts the report of these pairs and a summary of it.
pub fn put_changes<S: Shelf>(alloc: Global, shelf: &mut S, changes: &Changes) -> Result<(), Status>
    requires { AreChanges changes.now }
    ensures comes { IfErr result ComesOfPuts }
    ensures write { result ≡ Err Status.WriteFault → Rose (S.faults shelf.old) (S.faults shelf.new) }
    ensures leaves { (old : List FileBytes) → S.outputs shelf.old ≡ Some old → Leaves (ended result) (Ok (changed_outputs_in changes.now)) old (S.outputs shelf.new) }
    ensures later { S.faults shelf.old ≤ S.faults shelf.new }
{
    put_report(alloc, shelf, changes)?;
    put_summary(alloc, shelf, changes)
}

/// Puts the report.
fn put_report<S: Shelf>(alloc: Global, shelf: &mut S, changes: &Changes) -> Result<(), Status>
    requires { AreChanges changes.now }
    ensures comes { IfErr result ComesOfPuts }
    ensures write { result ≡ Err Status.WriteFault → Rose (S.faults shelf.old) (S.faults shelf.new) }
    ensures leaves { (old : List FileBytes) → S.outputs shelf.old ≡ Some old → Leaves (ended result) (Ok (changed_in changes.now ∷ [])) old (S.outputs shelf.new) }
    ensures later { S.faults shelf.old ≤ S.faults shelf.new }
{
    let report = changed_text(
        alloc,
        &changes.problem,
        changes.tells,
        &changes.leaves,
        &changes.met.encounters,
        &changes.met.closest,
        &changes.met.messages,
    )?;
    put(alloc, shelf, b"changed.report", &report)
}

/// Puts the summary.
fn put_summary<S: Shelf>(alloc: Global, shelf: &mut S, changes: &Changes) -> Result<(), Status>
    requires { AreChanges changes.now }
    ensures comes { IfErr result ComesOfPuts }
    ensures write { result ≡ Err Status.WriteFault → Rose (S.faults shelf.old) (S.faults shelf.new) }
    ensures leaves { (old : List FileBytes) → S.outputs shelf.old ≡ Some old → Leaves (ended result) (Ok (changed_summary_in changes.now ∷ [])) old (S.outputs shelf.new) }
    ensures later { S.faults shelf.old ≤ S.faults shelf.new }
{
    let objects = changes.problem.tracks.as_slice().len() as u64;
    let encounters = changes.met.encounters.len() as u64;
    let mut summary = changed_summary_text(alloc, objects, encounters, changes.kept)?;
    push_coverage(&mut summary, changes.tells, &changes.problem)?;
    put(alloc, shelf, b"-", &summary)
}
