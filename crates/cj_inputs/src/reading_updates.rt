//! The tracks of base files and of the updates of some of them.
ghost use Rattle.std.specs.Prelude.{◌≡◌, ◌<◌, ◌≤◌, List, Some, Ok, Err, All, map, length, IfErr, IfOk};
ghost use Rattle.cj_base.specs.Bounds.{MOST_OBJECTS};
ghost use Rattle.cj_io.specs.Faults.{Rose};
ghost use Rattle.cj_io.specs.declared.file.FileBytes.{FileBytes};
ghost use Rattle.cj_track.specs.PlainTracks.{PlainTrack};
ghost use Rattle.cj_track.specs.Tracks.{plain_track};
ghost use Rattle.cj_words.specs.Settings.{plain_settings};
ghost use Rattle.cj_inputs.specs.Readings.{Reads, readings_of};
ghost use Rattle.cj_inputs.specs.declared.input_files.Entry.{Entry};
ghost use Rattle.cj_inputs.specs.Updates as spec;
ghost use Rattle.cj_status.specs.Steps.{Gives, ComesBetween};

use crate::copying::copies_of;
use crate::input_files::Entry;
use crate::parsing::parse_bytes;
use crate::placing::{let_updated_go, place_others};
use crate::preparing::too_many_objects;
use crate::reading::{InputError, read_file};
use crate::taken::Taken;
use crate::taking::read_tracks;
use crate::trims::left_of;
use crate::updated::Updated;
use crate::updates::updated_name;
use cj_io::{Folder, Gate, Stage};
use cj_status::Status;
use cj_words::Settings;
use std::alloc::Global;
use std::thread::Threads;

/// Reads the base files, then the updates one after another, up to the first that is refused or beyond a limit, and puts the updates in the
/// places of what they update.
#[tactic(auto, unfolding(crate::specs::Updates::read_as))]
pub fn read_updated<R: Threads + Sync, F: Folder, G: Gate + Sync>(
    rt: &R,
    alloc: Global,
    gate: &G,
    folder: &mut F,
    entries: &[Entry],
    updates: &[Entry],
    settings: &Settings<'_>,
    update: &[u8],
    workers: u32,
) -> Result<Updated, Status>
    requires numbers { All (λ entry. entry.number < F.count folder.old) entries.now }
    requires update_numbers { All (λ entry. entry.number < F.count folder.old) updates.now }
    requires few { length entries.now ≤ MOST_OBJECTS }

    ensures between { IfErr result ComesBetween }
    ensures read { result ≡ Err Status.ReadFault → Rose (F.faults folder.old) (F.faults folder.new) }
    ensures told { (files : List FileBytes) → F.files folder.old ≡ Some files
        → Gives (Rose (F.faults folder.old) (F.faults folder.new)) spec.plain_updated result
        (spec.read_as files (plain_settings settings.now) update.now entries.now updates.now) }

    ensures count { F.count folder.new ≡ F.count folder.old }
    ensures files { F.files folder.new ≡ F.files folder.old }
    ensures later { F.faults folder.old ≤ F.faults folder.new }
{
    let base = read_tracks(rt, alloc, gate, folder, entries, settings, workers)?;
    let many = base.len();
    let all = take_updates(
        alloc,
        gate,
        folder,
        Taken::of(base),
        updates,
        settings,
        update,
    )?;
    update_tracks(alloc, all, many, updates, settings, update)
}

/// These tracks, and behind them those of the updates.
fn take_updates<F: Folder, G: Gate>(
    alloc: Global,
    gate: &G,
    folder: &mut F,
    mut taken: Taken,
    updates: &[Entry],
    settings: &Settings<'_>,
    update: &[u8],
) -> Result<Taken, InputError>
    requires { All (λ entry. entry.number < F.count folder.old) updates.now }

    ensures fault { result ≡ Err InputError.Failed → Rose (F.faults folder.old) (F.faults folder.new) }
    ensures told { (files : List FileBytes) → F.files folder.old ≡ Some files
        → Reads (Rose (F.faults folder.old) (F.faults folder.new)) (λ all. map plain_track all.tracks.items) result
        (spec.updates_after (plain_settings settings.now) update.now files (map plain_track taken.tracks.items) updates.now) }
    ensures more { IfOk result (λ all. length taken.tracks.items ≤ length all.tracks.items) }

    ensures count { F.count folder.new ≡ F.count folder.old }
    ensures files { F.files folder.new ≡ F.files folder.old }
    ensures later { F.faults folder.old ≤ F.faults folder.new }
{
    gate.begin(Stage::Files, updates.len() as u64);
    for entry in updates {
        taken = take_update(alloc, folder, taken, entry, settings, update)?;
        gate.advance(Stage::Files, 1);
    }
    Ok(taken)
}

/// These tracks, and behind them that of an update, where it has bytes. It is read under the name that it updates, and refused under its own.
fn take_update<F: Folder>(
    alloc: Global,
    folder: &mut F,
    taken: Taken,
    entry: &Entry,
    settings: &Settings<'_>,
    update: &[u8],
) -> Result<Taken, InputError>
    requires { entry.now.number < F.count folder.old }

    ensures fault { result ≡ Err InputError.Failed → Rose (F.faults folder.old) (F.faults folder.new) }
    ensures told { (files : List FileBytes) → F.files folder.old ≡ Some files
        → Reads (Rose (F.faults folder.old) (F.faults folder.new)) (λ all. map plain_track all.tracks.items) result
        (spec.update_after (plain_settings settings.now) update.now files (map plain_track taken.tracks.items) entry.now) }
    ensures more { IfOk result (λ all. length taken.tracks.items ≤ length all.tracks.items) }

    ensures count { F.count folder.new ≡ F.count folder.old }
    ensures files { F.files folder.new ≡ F.files folder.old }
    ensures later { F.faults folder.old ≤ F.faults folder.new }
{
    let name = entry.name.as_slice();
    let bytes = read_file(alloc, folder, entry.number, name)?;
    if bytes.is_empty() {
        return Ok(taken);
    }
    let read = updated_name(name, update);
    let whole = parse_bytes(alloc, read, name, &bytes, settings.as_hermite3)?;
    let track = left_of(alloc, whole, settings)?;
    taken.with_update(alloc, track, name, settings.limits)
}

/// The first so many of these tracks as the base, and with what the updates say in place of what they update, whose tracks are the others.
fn update_tracks(
    alloc: Global,
    all: Taken,
    many: usize,
    updates: &[Entry],
    settings: &Settings<'_>,
    update: &[u8],
) -> Result<Updated, Status>
    requires many { many ≤ length all.tracks.items }
    requires few { many ≤ MOST_OBJECTS }

    ensures between { IfErr result ComesBetween }
    ensures unread { result ≡ Err Status.ReadFault → ⊥ }
    ensures told { (files : List FileBytes) (entries : List Entry) (base : List PlainTrack) → length base ≡ many
        → readings_of (plain_settings settings.now) files entries ≡ Ok base
        → spec.updates_after (plain_settings settings.now) update.now files base updates.now ≡ Ok (map plain_track all.tracks.items)
        → Gives ⊥ spec.plain_updated result (spec.updated_with files (plain_settings settings.now) update.now entries updates.now base) }
{
    let mut base = all.tracks;
    let others = base.split_off(many)?;
    let mut new = copies_of(alloc, &base)?;
    let_updated_go(&mut new, updates, update);
    let count = new.len() + others.len();
    if count > settings.limits.objects as usize {
        return Err(too_many_objects(count as u32));
    }
    place_others(&mut new, others)?;
    Ok(Updated { base, new })
}
