//! The tracks of the files that are taken: batch by batch, each parsed side by side while the next is read.
ghost use Rattle.std.specs.Prelude.{◌≡◌, ◌<◌, ◌≤◌, List, Some, None, Ok, Err, Result, map, length, IfOk};
ghost use Rattle.std.specs.List.{All, AllZip};
ghost use Rattle.cj_io.specs.Faults.{Rose};
ghost use Rattle.cj_io.specs.declared.file.FileBytes.{FileBytes};
ghost use Rattle.cj_case.specs.CaseLimits.{AreFewNodes};
ghost use Rattle.cj_case.specs.Frames.{HaveOneFrame};
ghost use Rattle.cj_track.specs.PlainTracks.{PlainTrack};
ghost use Rattle.cj_track.specs.Tracks.{plain_track};
ghost use Rattle.cj_words.specs.Settings.{plain_settings};
ghost use Rattle.cj_status.specs.declared.status.Status.{Status};
ghost use Rattle.cj_inputs.specs.Batches.{Fits, GoesOn, IsBatchOf, IsFirstCause, IsOnTheWay, said_in, tracks_after};
ghost use Rattle.cj_inputs.specs.Readings.{Reads, readings_of};

use crate::batch::{Batch, FileRead};
use crate::batching::read_batch;
use crate::input_files::Entry;
use crate::overlapping::parse_and_read;
use crate::parsing::parse_files;
use crate::progress::Progress;
use crate::reading::InputError;
use crate::taken::Taken;
use cj_base::Limits;
use cj_io::{Folder, Gate, Stage};
use cj_track::Track;
use cj_words::Settings;
use std::alloc::{AllocError, Global};
use std::thread::Threads;

/// Reads the files in order, up to the first that is refused or beyond a limit. They are parsed by so many workers.
pub fn read_tracks<R: Threads + Sync, F: Folder, G: Gate + Sync>(
    rt: &R,
    alloc: Global,
    gate: &G,
    folder: &mut F,
    entries: &[Entry],
    settings: &Settings<'_>,
    workers: u32,
) -> Result<Vec<Track>, InputError>
    requires numbers { All (λ entry. entry.number < F.count folder.old) entries.now }

    ensures fault { result ≡ Err InputError.Failed → Rose (F.faults folder.old) (F.faults folder.new) }
    ensures told { (files : List FileBytes) → F.files folder.old ≡ Some files
        → Reads (Rose (F.faults folder.old) (F.faults folder.new)) (λ tracks. map plain_track tracks.items) result
        (readings_of (plain_settings settings.now) files entries.now) }

    ensures many { IfOk result (λ tracks. length tracks.items ≡ length entries.now) }
    ensures frame { IfOk result (λ tracks. HaveOneFrame tracks.items) }
    ensures nodes { IfOk result (λ tracks. AreFewNodes tracks.items) }

    ensures count { F.count folder.new ≡ F.count folder.old }
    ensures files { F.files folder.new ≡ F.files folder.old }
    ensures later { F.faults folder.old ≤ F.faults folder.new }
{
    gate.begin(Stage::Files, entries.len() as u64);
    let taken = Taken::with_capacity(alloc, entries.len())?;
    let batch = read_batch(alloc, folder, entries, workers, 0)?;
    let mut progress = Progress { taken, batch };
    while progress.taken.tracks.len() < entries.len() {
        progress = go_on(
            rt, alloc, gate, folder, progress, entries, settings, workers,
        )?;
    }
    drop(progress.batch);
    Ok(progress.taken.tracks)
}

/// Takes the files of the batch and reads the next batch. Several workers parse the one while this thread reads the other; one worker reads no
/// file behind one that is refused. None is read behind one that could not be.
fn go_on<'a, R: Threads + Sync, F: Folder, G: Gate + Sync>(
    rt: &R,
    alloc: Global,
    gate: &G,
    folder: &mut F,
    progress: Progress<'a>,
    entries: &'a [Entry],
    settings: &Settings<'_>,
    workers: u32,
) -> Result<Progress<'a>, InputError>
    requires numbers { All (λ entry. entry.number < F.count folder.old) entries.now }
    requires fits { Fits entries.now progress }
    requires left { length progress.taken.tracks.items < length entries.now }

    ensures stopped { result ≡ Err InputError.Failed → progress.entry.batch.stop ≡ Some InputError.Failed }
    ensures fault { IfOk result (λ next. next.batch.stop ≡ Some InputError.Failed → Rose (F.faults folder.old) (F.faults folder.new)) }
    ensures told { (files : List FileBytes) → F.files folder.old ≡ Some files → IsOnTheWay (plain_settings settings.now) files entries.now progress.entry
        → GoesOn (plain_settings settings.now) files entries.now result }

    ensures more { IfOk result (λ next. length progress.entry.taken.tracks.items < length next.taken.tracks.items) }
    ensures fits { IfOk result (Fits entries.now) }

    ensures count { F.count folder.new ≡ F.count folder.old }
    ensures files { F.files folder.new ≡ F.files folder.old }
    ensures later { F.faults folder.old ≤ F.faults folder.new }
{
    let Progress {
        taken,
        batch: Batch { files, stop },
    } = progress;
    if let Some(why) = stop {
        return Err(first_cause(rt, alloc, gate, taken, &files, why, settings, workers));
    }
    let rest = &entries[taken.tracks.len() + files.len()..];
    take_and_read(
        rt, alloc, gate, folder, taken, files, rest, settings, workers,
    )
}

/// Why one of these files is not taken, or else why the next was not read.
fn first_cause<R: Threads + Sync, G: Gate + Sync>(
    rt: &R,
    alloc: Global,
    gate: &G,
    taken: Taken,
    files: &[FileRead<'_>],
    why: InputError,
    settings: &Settings<'_>,
    workers: u32,
) -> InputError
    ensures failed { result ≡ InputError.Failed → why ≡ InputError.Failed }
    ensures told { IsFirstCause settings.now.limits.nodes why (map plain_track taken.tracks.items) (map (said_in (plain_settings settings.now)) files.now) result }
{
    match take_files(rt, alloc, gate, taken, files, settings, workers) {
        Ok(all) => {
            drop(all);
            why
        }
        Err(earlier) => {
            drop(why);
            earlier
        }
    }
}

/// Takes files that were read and reads the first of the rest, as a next batch. One worker lets a file go before it reads the next.
fn take_and_read<'a, R: Threads + Sync, F: Folder, G: Gate + Sync>(
    rt: &R,
    alloc: Global,
    gate: &G,
    folder: &mut F,
    taken: Taken,
    files: Vec<FileRead<'_>>,
    rest: &'a [Entry],
    settings: &Settings<'_>,
    workers: u32,
) -> Result<Progress<'a>, InputError>
    requires numbers { All (λ entry. entry.number < F.count folder.old) rest.now }

    ensures taken { Reads ⊥ (λ next. map plain_track next.taken.tracks.items) result
        (tracks_after settings.now.limits.nodes (map plain_track taken.tracks.items) (map (said_in (plain_settings settings.now)) files.entry.items)) }

    ensures fault { IfOk result (λ next. next.batch.stop ≡ Some InputError.Failed → Rose (F.faults folder.old) (F.faults folder.new)) }
    ensures told { (told : List FileBytes) → F.files folder.old ≡ Some told → IfOk result (λ next. IsBatchOf told rest.now next.batch) }
    ensures few { IfOk result (λ next. length next.batch.files.items ≤ length rest.now) }
    ensures some { IfOk result (λ next. next.batch.stop ≡ None → 0 < length rest.now → 0 < length next.batch.files.items) }

    ensures count { F.count folder.new ≡ F.count folder.old }
    ensures files { F.files folder.new ≡ F.files folder.old }
    ensures later { F.faults folder.old ≤ F.faults folder.new }
{
    if workers < 2 {
        let before = files.len();
        let taken = take_and_drop(rt, alloc, gate, taken, files, settings, workers)?;
        let batch = read_batch(alloc, folder, rest, workers, before)?;
        return Ok(Progress { taken, batch });
    }
    let (readings, batch) = parse_and_read(
        rt, alloc, gate, folder, &files, rest, settings, workers,
    );
    drop(files);
    with_batch(take_all(alloc, taken, readings, settings.limits), batch)
}

/// Tracks that were taken, with the next batch.
fn with_batch<'a>(
    taken: Result<Taken, InputError>,
    batch: Result<Batch<'a>, AllocError>,
) -> Result<Progress<'a>, InputError>
    ensures told { (expected : Result (List PlainTrack) Status) → Reads ⊥ (λ all. map plain_track all.tracks.items) taken expected
        → Reads ⊥ (λ next. map plain_track next.taken.tracks.items) result expected }
    ensures batch { IfOk result (λ next. batch.entry ≡ Ok next.batch) }
{
    match taken {
        Ok(taken) => Ok(Progress {
            taken,
            batch: batch?,
        }),
        Err(why) => {
            drop(batch);
            Err(why)
        }
    }
}

/// These tracks and those that the files say, up to the first that is refused or beyond a limit. The files are let go.
fn take_and_drop<R: Threads + Sync, G: Gate + Sync>(
    rt: &R,
    alloc: Global,
    gate: &G,
    taken: Taken,
    files: Vec<FileRead<'_>>,
    settings: &Settings<'_>,
    workers: u32,
) -> Result<Taken, InputError>
    ensures { Reads ⊥ (λ all. map plain_track all.tracks.items) result
        (tracks_after settings.now.limits.nodes (map plain_track taken.tracks.items) (map (said_in (plain_settings settings.now)) files.entry.items)) }
{
    let all = take_files(rt, alloc, gate, taken, &files, settings, workers);
    drop(files);
    all
}

/// These tracks and those that the files say, up to the first that is refused or beyond a limit. So many workers parse them.
fn take_files<R: Threads + Sync, G: Gate + Sync>(
    rt: &R,
    alloc: Global,
    gate: &G,
    taken: Taken,
    files: &[FileRead<'_>],
    settings: &Settings<'_>,
    workers: u32,
) -> Result<Taken, InputError>
    ensures { Reads ⊥ (λ all. map plain_track all.tracks.items) result
        (tracks_after settings.now.limits.nodes (map plain_track taken.tracks.items) (map (said_in (plain_settings settings.now)) files.now)) }
{
    take_all(
        alloc,
        taken,
        parse_files(rt, alloc, gate, files, settings, workers),
        settings.limits,
    )
}

/// These tracks and those that were read, up to the first that is refused or beyond a limit.
fn take_all(
    alloc: Global,
    mut taken: Taken,
    readings: Result<Vec<Result<Track, InputError>>, AllocError>,
    limits: Limits,
) -> Result<Taken, InputError>
    ensures { (said : List (Result PlainTrack Status)) → IfOk readings (λ all. AllZip (Reads ⊥ plain_track) all.items said)
        → Reads ⊥ (λ all. map plain_track all.tracks.items) result (tracks_after limits.nodes (map plain_track taken.tracks.items) said) }
{
    for reading in readings? {
        taken = taken.with(alloc, reading?, limits)?;
    }
    Ok(taken)
}
