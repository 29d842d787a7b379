//! From the settings and a folder to the problem that is to be screened.
ghost use Rattle.std.specs.Prelude.{◌≡◌, ◌<◌, ◌≤◌, ◌^◌, List, Some, Err, IfErr, IfOk, All, map, length};
ghost use Rattle.cj_base.specs.Bounds.{MOST_OBJECTS};
ghost use Rattle.cj_io.specs.Faults.{Rose};
ghost use Rattle.cj_io.specs.Files.{names_of};
ghost use Rattle.cj_io.specs.declared.file.FileBytes.{FileBytes};
ghost use Rattle.cj_case.specs.CaseLimits.{AreFewNodes};
ghost use Rattle.cj_case.specs.Frames.{HaveOneFrame};
ghost use Rattle.cj_case.specs.Primaries.{marks_of};
ghost use Rattle.cj_case.specs.Problems.{plain_problem};
ghost use Rattle.cj_track.specs.Tracks.{plain_track};
ghost use Rattle.cj_words.specs.Settings.{plain_settings};
ghost use Rattle.cj_inputs.specs.Cases as spec;
ghost use Rattle.cj_inputs.specs.FromFiles.{AreFromFiles};
ghost use Rattle.cj_inputs.specs.InputFiles.{inputs_of, plain_apart};
ghost use Rattle.cj_inputs.specs.ObjectAttributes.{plain_attributes};
ghost use Rattle.cj_status.specs.Steps.{Gives, ComesBetween, IsLimit};

use crate::all_faults::tell_all_faults;
use crate::apart::Apart;
use crate::input_files::{Entry, list_inputs};
use crate::object_attributes::{Attributes, read_attributes};
use crate::object_sizes::sizes_of_tracks;
use crate::taking::read_tracks;
use crate::warnings::{warn_of_names, warn_of_tracks};
use crate::window::window_of;
use cj_base::{Limits, Window};
use cj_case::{Primaries, Problem, Sizes, Tracks, slot_count};
use cj_io::{Folder, Gate, Name};
use cj_status::{LimitFault, Status};
use cj_track::Track;
use cj_words::Settings;
use std::alloc::Global;
use std::thread::Threads;

/// The greatest length of a window in ticks: fourteen days.
const MAX_LENGTH: u64 = 1_209_600_000_000;

/// Reads the files that are taken and the sizes of their objects, and puts them with the window and the threshold that are asked for.
/// The files are parsed by so many workers.
pub fn prepare<R: Threads + Sync, F: Folder, G: Gate + Sync>(
    rt: &R,
    alloc: Global,
    gate: &G,
    folder: &mut F,
    settings: &Settings,
    workers: u32,
) -> Result<Problem, Status>
    ensures between { IfErr result ComesBetween }
    ensures read { result ≡ Err Status.ReadFault → Rose (F.faults folder.old) (F.faults folder.new) }
    ensures told { (files : List FileBytes) → F.files folder.old ≡ Some files
        → Gives (Rose (F.faults folder.old) (F.faults folder.new)) plain_problem result (spec.case_asked files (plain_settings settings.now)) }

    // At each tick of the window an object is between the two states that its file says, or has none there.
    ensures trim_same { (files : List FileBytes) → F.files folder.old ≡ Some files
        → IfOk result (λ problem. AreFromFiles (plain_settings settings.now) files (plain_problem problem)) }

    ensures files { F.files folder.new ≡ F.files folder.old }
    ensures later { F.faults folder.old ≤ F.faults folder.new }
{
    let names = folder.names(alloc)?;
    prepare_listed(rt, alloc, gate, folder, &names, settings, workers)
}

/// The same of a folder with these names. Where a file is refused and somebody wants to be told all faults, the first of each file is told.
pub fn prepare_listed<R: Threads + Sync, F: Folder, G: Gate + Sync>(
    rt: &R,
    alloc: Global,
    gate: &G,
    folder: &mut F,
    names: &[Name],
    settings: &Settings,
    workers: u32,
) -> Result<Problem, Status>
    requires many { length names.now < 2 ^ 32 }
    requires count { F.count folder.old ≡ length names.now }

    ensures between { IfErr result ComesBetween }
    ensures read { result ≡ Err Status.ReadFault → Rose (F.faults folder.old) (F.faults folder.new) }
    ensures told { (files : List FileBytes) → F.files folder.old ≡ Some files → names.now ≡ names_of files
        → Gives (Rose (F.faults folder.old) (F.faults folder.new)) plain_problem result (spec.case_asked files (plain_settings settings.now)) }

    ensures count { F.count folder.new ≡ F.count folder.old }
    ensures files { F.files folder.new ≡ F.files folder.old }
    ensures later { F.faults folder.old ≤ F.faults folder.new }
{
    let read = read_problem(rt, alloc, gate, folder, names, settings, workers);
    tell_all_faults(alloc, gate, folder, names, settings, None, &read);
    read
}

/// The problem of a folder with these names, up to the first file that is refused.
#[tactic(auto, unfolding(crate::specs::Cases::case_asked))]
fn read_problem<R: Threads + Sync, F: Folder, G: Gate + Sync>(
    rt: &R,
    alloc: Global,
    gate: &G,
    folder: &mut F,
    names: &[Name],
    settings: &Settings,
    workers: u32,
) -> Result<Problem, Status>
    requires many { length names.now < 2 ^ 32 }
    requires count { F.count folder.old ≡ length names.now }

    ensures between { IfErr result ComesBetween }
    ensures read { result ≡ Err Status.ReadFault → Rose (F.faults folder.old) (F.faults folder.new) }
    ensures told { (files : List FileBytes) → F.files folder.old ≡ Some files → names.now ≡ names_of files
        → Gives (Rose (F.faults folder.old) (F.faults folder.new)) plain_problem result (spec.case_asked files (plain_settings settings.now)) }

    ensures count { F.count folder.new ≡ F.count folder.old }
    ensures files { F.files folder.new ≡ F.files folder.old }
    ensures later { F.faults folder.old ≤ F.faults folder.new }
{
    let entries = list_few_inputs(
        alloc,
        names,
        settings.suffix,
        Apart::of(settings),
        settings.limits,
    )?;
    warn_of_names(
        gate,
        names,
        &entries,
        settings.suffix,
        Apart::of(settings),
        None,
    );
    let tracks = read_tracks(rt, alloc, gate, folder, &entries, settings, workers)?;
    let said = read_attributes(alloc, folder, names, &tracks, &[], settings)?;
    problem_of(alloc, gate, settings, tracks, &said)
}

/// The files that are taken of those with these names, where there are not too many.
pub fn list_few_inputs(
    alloc: Global,
    names: &[Name],
    suffix: &[u8],
    apart: Apart<'_>,
    limits: Limits,
) -> Result<Vec<Entry>, Status>
    requires { length names.now < 2 ^ 32 }
    ensures between { IfErr result ComesBetween }
    ensures told { Gives ⊥ (λ entries. entries.items) result
        (spec.within_objects limits.objects (inputs_of suffix.now (plain_apart apart.entry) names.now)) }
    ensures few { IfOk result (λ entries. length entries.items ≤ MOST_OBJECTS) }
    ensures numbers { IfOk result (λ entries. All (λ entry. entry.number < length names.now) entries.items) }
{
    let entries = list_inputs(alloc, names, suffix, apart)?;
    if entries.len() > limits.objects as usize {
        return Err(too_many_objects(entries.len() as u32));
    }
    Ok(entries)
}

pub fn too_many_objects(count: u32) -> Status
    ensures { result ≡ Status.Limit (LimitFault.Objects count) }
{
    Status::Limit(LimitFault::Objects { count })
}

/// The problem that is asked of these tracks, where files say this of their objects.
pub fn problem_of<G: Gate>(
    alloc: Global,
    gate: &G,
    settings: &Settings,
    tracks: Vec<Track>,
    said: &Attributes,
) -> Result<Problem, Status>
    requires few { length tracks.items ≤ MOST_OBJECTS }
    requires frame { HaveOneFrame tracks.items }
    requires nodes { AreFewNodes tracks.items }
    ensures between { IfErr result ComesBetween }
    ensures told { Gives ⊥ plain_problem result
        (spec.within_limits settings.now.limits.object_slots (spec.case_of_run (plain_settings settings.now) (map plain_track tracks.items) (plain_attributes said.now))) }
{
    warn_of_tracks(
        alloc,
        gate,
        &tracks,
        window_of(settings, &tracks),
        &said.sizes,
    );
    silent_problem_of(alloc, settings, tracks, said)
}

/// The same, of which nobody is warned.
pub fn silent_problem_of(
    alloc: Global,
    settings: &Settings,
    tracks: Vec<Track>,
    said: &Attributes,
) -> Result<Problem, Status>
    requires few { length tracks.items ≤ MOST_OBJECTS }
    requires frame { HaveOneFrame tracks.items }
    requires nodes { AreFewNodes tracks.items }
    ensures between { IfErr result ComesBetween }
    ensures told { Gives ⊥ plain_problem result
        (spec.within_limits settings.now.limits.object_slots (spec.case_of_run (plain_settings settings.now) (map plain_track tracks.items) (plain_attributes said.now))) }
{
    let sizes = sizes_of_tracks(alloc, &said.sizes, &tracks)?;
    let primaries = said.primaries_among(alloc, &tracks)?;
    let window = window_of(settings, &tracks);
    let threshold = settings.threshold * 1_000_000_000;
    make_problem(tracks, sizes, primaries, window, threshold, settings.limits)
}

/// The problem of these tracks, whose objects have these sizes and of which these are primaries, where its window is within the limits.
fn make_problem(
    tracks: Vec<Track>,
    sizes: Sizes,
    primaries: Primaries,
    window: Window,
    threshold: u64,
    limits: Limits,
) -> Result<Problem, Status>
    requires few { length tracks.items ≤ MOST_OBJECTS }
    requires frame { HaveOneFrame tracks.items }
    requires nodes { AreFewNodes tracks.items }
    requires sized { length sizes ≡ length tracks.items }
    requires marked { marks_of primaries (length tracks.items) ≡ length tracks.items }
    requires least { 10 ^ 9 ≤ threshold }
    requires most { threshold ≤ 10 ^ 15 }
    ensures limit { IfErr result IsLimit }
    ensures told { Gives ⊥ plain_problem result
        (spec.within_limits limits.object_slots (spec.case_with (map plain_track tracks.items) window.first.micros window.last.micros threshold sizes primaries)) }
{
    let length = window.last.micros.saturating_sub(window.first.micros);
    if length > MAX_LENGTH {
        return Err(Status::Limit(LimitFault::Window { length }));
    }
    let count = tracks.len() as u64 * u64::from(slot_count(window));
    if count > limits.object_slots {
        return Err(Status::Limit(LimitFault::Slots { count }));
    }
    Ok(Problem {
        tracks: Tracks::new(tracks),
        window,
        threshold,
        sizes,
        primaries,
    })
}
