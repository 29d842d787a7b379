//! From a folder with updates to the problems before and after them.
ghost use Rattle.std.specs.Prelude.{◌≡◌, ◌<◌, ◌≤◌, ◌^◌, List, Some, Err, IfErr, IfOk, All, is_some, length, nat_le, true};
ghost use Rattle.std.specs.Option.{option_copied};
ghost use Rattle.cj_base.specs.Bounds.{MOST_OBJECTS};
ghost use Rattle.cj_io.specs.Faults.{Rose};
ghost use Rattle.cj_io.specs.Files.{names_of};
ghost use Rattle.cj_io.specs.declared.file.FileBytes.{FileBytes};
ghost use Rattle.cj_case.specs.Problems.{plain_problem};
ghost use Rattle.cj_words.specs.Commands.{plain_rescreening};
ghost use Rattle.cj_words.specs.Settings.{plain_settings};
ghost use Rattle.cj_inputs.specs.Cases.{within_objects};
ghost use Rattle.cj_inputs.specs.InputFiles.{apart_of};
ghost use Rattle.cj_inputs.specs.ObjectAttributes.{plain_attributes};
ghost use Rattle.cj_inputs.specs.Updates as spec;
ghost use Rattle.cj_status.specs.Steps.{Gives, ComesBetween};

use crate::all_faults::tell_all_faults;
use crate::apart::Apart;
use crate::input_files::Entry;
use crate::object_attributes::{Attributes, read_attributes};
use crate::preparing::{prepare_listed, problem_of, silent_problem_of, too_many_objects};
use crate::reading_updates::read_updated;
use crate::updated::Updated;
use crate::updates::{list_base, list_updates};
use crate::updating::Updating;
use crate::warnings::{warn_of_names, warn_of_tracks};
use crate::window::window_of;
use cj_case::Problem;
use cj_io::{Folder, Gate, Name};
use cj_status::Status;
use cj_track::Track;
use cj_words::{Rescreening, Settings};
use std::alloc::Global;
use std::thread::Threads;

/// Reads the base files, the updates that count and the sizes of the objects of both, and puts them with the window and the threshold that are
/// asked for: before the updates, and after them. The base files are parsed by as many workers as are asked for.
#[tactic(auto, unfolding(crate::specs::Updates::cases_asked))]
pub fn prepare_update<R: Threads + Sync, F: Folder, G: Gate + Sync>(
    rt: &R,
    alloc: Global,
    gate: &G,
    folder: &mut F,
    rescreening: &Rescreening,
) -> Result<Updating, Status>
    ensures between { IfErr result ComesBetween }
    ensures read { result ≡ Err Status.ReadFault → Rose (F.faults folder.old) (F.faults folder.new) }
    ensures told { (files : List FileBytes) → F.files folder.old ≡ Some files
        → Gives (Rose (F.faults folder.old) (F.faults folder.new)) spec.plain_updating result (spec.cases_asked files (plain_rescreening rescreening.now)) }

    ensures files { F.files folder.new ≡ F.files folder.old }
    ensures later { F.faults folder.old ≤ F.faults folder.new }
{
    let names = folder.names(alloc)?;
    let settings = &rescreening.screening.settings;
    let update = rescreening.update;
    let read = read_updating(rt, alloc, gate, folder, &names, rescreening);
    tell_all_faults(alloc, gate, folder, &names, settings, Some(update), &read);
    read
}

/// The problems before and after updates in a folder with these names, up to the first file that is refused.
#[tactic(auto, unfolding(crate::specs::Updates::cases_asked))]
fn read_updating<R: Threads + Sync, F: Folder, G: Gate + Sync>(
    rt: &R,
    alloc: Global,
    gate: &G,
    folder: &mut F,
    names: &[Name],
    rescreening: &Rescreening,
) -> Result<Updating, Status>
    requires many { length names.now < 2 ^ 32 }
    requires count { F.count folder.old ≡ length names.now }

    ensures between { IfErr result ComesBetween }
    ensures read { result ≡ Err Status.ReadFault → Rose (F.faults folder.old) (F.faults folder.new) }
    ensures told { (files : List FileBytes) → F.files folder.old ≡ Some files → names.now ≡ names_of files
        → Gives (Rose (F.faults folder.old) (F.faults folder.new)) spec.plain_updating result (spec.cases_asked files (plain_rescreening rescreening.now)) }

    ensures count { F.count folder.new ≡ F.count folder.old }
    ensures files { F.files folder.new ≡ F.files folder.old }
    ensures later { F.faults folder.old ≤ F.faults folder.new }
{
    let screening = &rescreening.screening;
    let settings = &screening.settings;
    let update = rescreening.update;
    let tracks = read_listed(
        rt,
        alloc,
        gate,
        folder,
        names,
        settings,
        update,
        screening.workers,
    )?;
    let said = read_attributes(alloc, folder, names, &tracks.base, &tracks.new, settings)?;
    updating_of(alloc, gate, settings, tracks, &said)
}

/// The problems that are asked of these tracks for one window, where files say this of their objects.
fn updating_of<G: Gate>(
    alloc: Global,
    gate: &G,
    settings: &Settings,
    tracks: Updated,
    said: &Attributes,
) -> Result<Updating, Status>
    requires begins { is_some settings.now.from ≡ true }
    requires ends { is_some settings.now.to ≡ true }
    ensures between { IfErr result ComesBetween }
    ensures told { Gives ⊥ spec.plain_updating result
        (spec.both_within settings.now.limits.object_slots (spec.cases_of_run (plain_settings settings.now) (spec.plain_updated tracks) (plain_attributes said.now))) }
{
    let Updated { base, new } = tracks;
    warn_of_tracks(alloc, gate, &new, window_of(settings, &new), &said.sizes);
    if are_no_more(&base, &new) {
        let new = silent_problem_of(alloc, settings, new, said)?;
        let base = silent_problem_of(alloc, settings, base, said)?;
        Ok(Updating { base, new })
    } else {
        let base = silent_problem_of(alloc, settings, base, said)?;
        let new = silent_problem_of(alloc, settings, new, said)?;
        Ok(Updating { base, new })
    }
}

/// Whether there are no more of some tracks than of others.
fn are_no_more(some: &[Track], others: &[Track]) -> bool
    ensures { result ≡ nat_le (length some.now) (length others.now) }
{
    some.len() <= others.len()
}

/// Prepares the problem that is asked of a folder with these names, where files may be updates.
pub fn prepare_with_updates<R: Threads + Sync, F: Folder, G: Gate + Sync>(
    rt: &R,
    alloc: Global,
    gate: &G,
    folder: &mut F,
    names: &[Name],
    settings: &Settings,
    update: Option<&[u8]>,
    workers: u32,
) -> Result<Problem, Status>
    requires many { length names.now < 2 ^ 32 }
    requires count { F.count folder.old ≡ length names.now }

    ensures between { IfErr result ComesBetween }
    ensures read { result ≡ Err Status.ReadFault → Rose (F.faults folder.old) (F.faults folder.new) }
    ensures told { (files : List FileBytes) → F.files folder.old ≡ Some files → names.now ≡ names_of files
        → Gives (Rose (F.faults folder.old) (F.faults folder.new)) plain_problem result
        (spec.case_with_updates files (plain_settings settings.now) (option_copied update.entry)) }

    ensures count { F.count folder.new ≡ F.count folder.old }
    ensures files { F.files folder.new ≡ F.files folder.old }
    ensures later { F.faults folder.old ≤ F.faults folder.new }
{
    match update {
        None => prepare_listed(rt, alloc, gate, folder, names, settings, workers),
        Some(update) => {
            prepare_updated(rt, alloc, gate, folder, names, settings, update, workers)
        }
    }
}

/// Prepares the problem of the updated files alone.
fn prepare_updated<R: Threads + Sync, F: Folder, G: Gate + Sync>(
    rt: &R,
    alloc: Global,
    gate: &G,
    folder: &mut F,
    names: &[Name],
    settings: &Settings,
    update: &[u8],
    workers: u32,
) -> Result<Problem, Status>
    requires many { length names.now < 2 ^ 32 }
    requires count { F.count folder.old ≡ length names.now }

    ensures between { IfErr result ComesBetween }
    ensures read { result ≡ Err Status.ReadFault → Rose (F.faults folder.old) (F.faults folder.new) }
    ensures told { (files : List FileBytes) → F.files folder.old ≡ Some files → names.now ≡ names_of files
        → Gives (Rose (F.faults folder.old) (F.faults folder.new)) plain_problem result (spec.updated_asked files (plain_settings settings.now) update.now) }

    ensures count { F.count folder.new ≡ F.count folder.old }
    ensures files { F.files folder.new ≡ F.files folder.old }
    ensures later { F.faults folder.old ≤ F.faults folder.new }
{
    let read = read_updated_problem(rt, alloc, gate, folder, names, settings, update, workers);
    tell_all_faults(alloc, gate, folder, names, settings, Some(update), &read);
    read
}

/// The problem of the updated files, up to the first file that is refused.
#[tactic(auto, unfolding(crate::specs::Updates::updated_asked))]
fn read_updated_problem<R: Threads + Sync, F: Folder, G: Gate + Sync>(
    rt: &R,
    alloc: Global,
    gate: &G,
    folder: &mut F,
    names: &[Name],
    settings: &Settings,
    update: &[u8],
    workers: u32,
) -> Result<Problem, Status>
    requires many { length names.now < 2 ^ 32 }
    requires count { F.count folder.old ≡ length names.now }

    ensures between { IfErr result ComesBetween }
    ensures read { result ≡ Err Status.ReadFault → Rose (F.faults folder.old) (F.faults folder.new) }
    ensures told { (files : List FileBytes) → F.files folder.old ≡ Some files → names.now ≡ names_of files
        → Gives (Rose (F.faults folder.old) (F.faults folder.new)) plain_problem result (spec.updated_asked files (plain_settings settings.now) update.now) }

    ensures count { F.count folder.new ≡ F.count folder.old }
    ensures files { F.files folder.new ≡ F.files folder.old }
    ensures later { F.faults folder.old ≤ F.faults folder.new }
{
    let tracks = read_listed(rt, alloc, gate, folder, names, settings, update, workers)?;
    let said = read_attributes(alloc, folder, names, &tracks.base, &tracks.new, settings)?;
    let Updated { base, new } = tracks;
    drop(base);
    problem_of(alloc, gate, settings, new, &said)
}

/// The tracks of the base files and of the updated files of a folder with these names.
#[tactic(auto, unfolding(crate::specs::Updates::tracks_updated))]
fn read_listed<R: Threads + Sync, F: Folder, G: Gate + Sync>(
    rt: &R,
    alloc: Global,
    gate: &G,
    folder: &mut F,
    names: &[Name],
    settings: &Settings,
    update: &[u8],
    workers: u32,
) -> Result<Updated, Status>
    requires many { length names.now < 2 ^ 32 }
    requires count { F.count folder.old ≡ length names.now }

    ensures between { IfErr result ComesBetween }
    ensures read { result ≡ Err Status.ReadFault → Rose (F.faults folder.old) (F.faults folder.new) }
    ensures told { (files : List FileBytes) → F.files folder.old ≡ Some files → names.now ≡ names_of files
        → Gives (Rose (F.faults folder.old) (F.faults folder.new)) spec.plain_updated result (spec.tracks_updated files (plain_settings settings.now) update.now) }

    ensures count { F.count folder.new ≡ F.count folder.old }
    ensures files { F.files folder.new ≡ F.files folder.old }
    ensures later { F.faults folder.old ≤ F.faults folder.new }
{
    let entries = list_few_base(alloc, names, settings, update)?;
    warn_of_names(
        gate,
        names,
        &entries,
        settings.suffix,
        Apart::of(settings),
        Some(update),
    );
    let updates = list_updates(alloc, names, settings.suffix, update, Apart::of(settings))?;
    read_updated(
        rt, alloc, gate, folder, &entries, &updates, settings, update, workers,
    )
}

/// The base files of those with these names, where there are not too many.
fn list_few_base(
    alloc: Global,
    names: &[Name],
    settings: &Settings,
    update: &[u8],
) -> Result<Vec<Entry>, Status>
    requires { length names.now < 2 ^ 32 }
    ensures between { IfErr result ComesBetween }
    ensures told { Gives ⊥ (λ entries. entries.items) result
        (within_objects settings.now.limits.objects (spec.base_of settings.now.suffix.now update.now (apart_of (plain_settings settings.now)) names.now)) }
    ensures few { IfOk result (λ entries. length entries.items ≤ MOST_OBJECTS) }
    ensures numbers { IfOk result (λ entries. All (λ entry. entry.number < length names.now) entries.items) }
{
    let entries = list_base(alloc, names, settings.suffix, update, Apart::of(settings))?;
    if entries.len() > settings.limits.objects as usize {
        return Err(too_many_objects(entries.len() as u32));
    }
    Ok(entries)
}
