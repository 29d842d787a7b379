//! The messages of a run: which encounters have one, and putting them.
ghost use Rattle.std.specs.Prelude.{◌≡◌, ℕ, ◌<◌, ◌≤◌, List, length, map, option_map, option_to_list, All, Some, Ok, Err, IfErr, IfOk, false, true, slice_index_or};
ghost use Rattle.std.specs.List.{count_by};
ghost use Rattle.cj_base.specs.Bytes.{is_feed};
ghost use Rattle.cj_io.specs.Faults.{Rose};
ghost use Rattle.cj_io.specs.declared.file.FileBytes.{FileBytes};
ghost use Rattle.cj_case.specs.Problems.{plain_problem};
ghost use Rattle.cj_case.specs.Leaves.{PlainLeaf};
ghost use Rattle.cj_meet.specs.Closest.{closest_of, some_closest};
ghost use Rattle.cj_meet.specs.Encounters.{Describes, groups_in};
ghost use Rattle.cj_cdm.specs.Building.{message_of};
ghost use Rattle.cj_cdm.specs.Fields.{stamp_of};
ghost use Rattle.cj_outputs.specs.Findings.{AreFound, ended, messages_in};
ghost use Rattle.cj_outputs.specs.Messages as spec;
ghost use Rattle.cj_outputs.specs.Messages.{message_output, told_with};
ghost use Rattle.cj_outputs.specs.Origins.{plain_origin};
ghost use Rattle.cj_outputs.specs.Outcome.{ComesOfPuts, Leaves};

use crate::findings::Findings;
use crate::origin::Origin;
use crate::putting::put;
use cj_base::Tick;
use cj_case::{Closest, Encounter, Pair, Problem};
use cj_cdm::{CovarianceIndex, Stamp, add_lines, message_name};
use cj_io::Shelf;
use cj_rtn::{Rtn, relative_state};
use cj_status::Status;
use std::alloc::{AllocError, Global};

/// Whether each of these encounters, whose closest approaches these are, has a message.
pub fn note_messages(
    alloc: Global,
    problem: &Problem,
    encounters: &[Encounter],
    closest: &[Closest],
) -> Result<Vec<bool>, AllocError>
    requires one_each { length closest.now ≡ length encounters.now }
    // Of whatever leaves they are the encounters.
    ensures { IfOk result (λ noted. (ss : List PlainLeaf) → All (Describes ss) encounters.now
        → map some_closest closest.now ≡ map (closest_of (plain_problem problem.now)) (groups_in ss encounters.now)
        → noted.items ≡ map (spec.has_message (plain_problem problem.now)) (groups_in ss encounters.now)) }
{
    let covariances = covariances_of(alloc, problem, encounters)?;
    let mut noted = Vec::with_capacity(alloc, encounters.len())?;
    for (place, encounter) in encounters.iter().enumerate() {
        noted.push(covariances.has_message(encounter.pair, closest[place].tick))?;
    }
    Ok(noted)
}

/// Makes and puts the message of each encounter that has one. Each is dropped after its put.
pub fn put_messages<S: Shelf>(
    alloc: Global,
    shelf: &mut S,
    found: &Findings,
    origin: Origin,
) -> Result<(), Status>
    requires { AreFound found.now }
    ensures comes { IfErr result ComesOfPuts }
    ensures write { result ≡ Err Status.WriteFault → Rose (S.faults shelf.old) (S.faults shelf.new) }
    ensures leaves { (old : List FileBytes) → S.outputs shelf.old ≡ Some old
        → Leaves (ended result) (Ok (messages_in (plain_origin origin.entry) found.now)) old (S.outputs shelf.new) }
    ensures later { S.faults shelf.old ≤ S.faults shelf.new }
    // The summary counts them.
    ensures counted { length (messages_in (plain_origin origin.entry) found.now) ≡ found.now.counts.messages }
{
    let covariances = covariances_of(alloc, &found.problem, &found.encounters)?;
    for (place, encounter) in found.encounters.iter().enumerate() {
        let closest = &found.closest[place];
        let stamp = origin.stamp(place as u32 + 1);
        let relative = relative_to_tell(
            &found.problem,
            origin.relative,
            encounter.pair,
            closest.tick,
        );
        put_message(
            alloc,
            shelf,
            &covariances,
            encounter,
            closest,
            stamp,
            relative,
        )?;
    }
    Ok(())
}

/// What the second object of a pair is relative to the first, where it is to be told and there is such a state.
fn relative_to_tell(problem: &Problem, tells: bool, pair: Pair, at: Tick) -> Option<Rtn>
    ensures { result ≡ spec.relative_to_tell tells (plain_problem problem.now) pair.a pair.b at.micros }
{
    if tells {
        relative_state(problem, pair, at)
    } else {
        None
    }
}

/// Makes and puts the message of an encounter, where it has one, with the lines of the relative state where that is given.
fn put_message<S: Shelf>(
    alloc: Global,
    shelf: &mut S,
    covariances: &CovarianceIndex<'_>,
    encounter: &Encounter,
    closest: &Closest,
    stamp: Stamp,
    relative: Option<Rtn>,
) -> Result<(), Status>
    ensures comes { IfErr result ComesOfPuts }
    ensures write { result ≡ Err Status.WriteFault → Rose (S.faults shelf.old) (S.faults shelf.new) }
    ensures leaves { (old : List FileBytes) → S.outputs shelf.old ≡ Some old → Leaves (ended result)
        (Ok (option_to_list (option_map (message_output stamp.entry.number relative)
        (message_of (plain_problem covariances.now) encounter.now.pair.a encounter.now.pair.b closest.now.tick.micros closest.now.high (stamp_of stamp.entry)))))
        old (S.outputs shelf.new) }
    ensures later { S.faults shelf.old ≤ S.faults shelf.new }
{
    let made = covariances.message(alloc, encounter.pair, closest.tick, closest.high, stamp)?;
    let Some(text) = made else {
        return Ok(());
    };
    let told = with_relative(alloc, text, relative)?;
    let name = message_name(alloc, stamp.number)?;
    put(alloc, shelf, &name, &told)
}

/// The text of a message with the lines of a relative state behind its miss distance, where there is one.
fn with_relative(alloc: Global, text: Vec<u8>, relative: Option<Rtn>) -> Result<Vec<u8>, AllocError>
    requires { 6 ≤ count_by is_feed text.items }
    ensures { IfOk result (λ told. told.items ≡ told_with relative text.items) }
{
    match relative {
        Some(relative) => add_lines(alloc, &text, &relative),
        None => Ok(text),
    }
}

/// The covariances of a problem, in order for the objects that have an encounter.
fn covariances_of<'p>(
    alloc: Global,
    problem: &'p Problem,
    encounters: &[Encounter],
) -> Result<CovarianceIndex<'p>, AllocError>
    ensures { IfOk result (λ covariances. covariances ≡ problem.now) }
{
    let met = objects_met(alloc, problem.tracks.as_slice().len(), encounters)?;
    CovarianceIndex::new(alloc, problem, &met)
}

/// Of each of so many objects, whether it has an encounter.
fn objects_met(
    alloc: Global,
    objects: usize,
    encounters: &[Encounter],
) -> Result<Vec<bool>, AllocError>
    ensures { IfOk result (λ met. length met.items ≡ objects) }
{
    let mut met = vec![in alloc; false; objects]?;
    for encounter in encounters {
        mark(&mut met, encounter.pair.a);
        mark(&mut met, encounter.pair.b);
    }
    Ok(met)
}

/// Marks an object, where there is one with this number.
fn mark(met: &mut [bool], object: u32)
    ensures length { length met.new ≡ length met.old }
    ensures marked { object < length met.old → slice_index_or met.new object false ≡ true }
    ensures kept { (other : ℕ) → slice_index_or met.old other false ≡ true → slice_index_or met.new other false ≡ true }
{
    let object = object as usize;
    if object < met.len() {
        met[object] = true;
    }
}
