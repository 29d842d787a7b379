//! The first fault of each file, where one is refused. What is told is no part of any clause.
ghost use Rattle.std.specs.Prelude.{◌≡◌, ◌<◌, ◌≤◌, ◌^◌, length};
ghost use Rattle.std.specs.List.{All};

use crate::apart::Apart;
use crate::input_files::{Entry, list_inputs};
use crate::object_sizes::read_size_lines;
use crate::parsing::parse_bytes;
use crate::reading::{InputError, read_file};
use crate::updates::{list_base, list_updates, updated_name};
use cj_io::{Folder, Gate, Name};
use cj_status::{FileCause, Status, fault_text};
use cj_track::{Frame, Track};
use cj_words::Settings;
use std::alloc::{AllocError, Global};

/// A file that is refused, and why.
#[derive(Clone, Copy)]
struct Refusal<'r> {
    file: &'r [u8],
    line: u32,
    cause: FileCause,
}

/// Where a folder with these names was read up to a file that is refused, tells that it is, and of each other one that is, with its first fault: the
/// ephemerides in order, then the updates, where files may be updates, and then the file of sizes. Each is read anew and for itself. A fault of the
/// folder, a limit and want of memory end it.
pub fn tell_all_faults<F: Folder, G: Gate, T>(
    alloc: Global,
    gate: &G,
    folder: &mut F,
    names: &[Name],
    settings: &Settings<'_>,
    update: Option<&[u8]>,
    read: &Result<T, Status>,
)
    requires many { length names.now < 2 ^ 32 }
    requires count { F.count folder.old ≡ length names.now }

    ensures count { F.count folder.new ≡ F.count folder.old }
    ensures files { F.files folder.new ≡ F.files folder.old }
    ensures later { F.faults folder.old ≤ F.faults folder.new }
{
    let Err(Status::BadFile { file, line, cause }) = read else {
        return;
    };
    let known = Refusal {
        file: file.as_slice(),
        line: *line,
        cause: *cause,
    };
    if gate.wants_all_faults() && tell(alloc, gate, known).is_ok() {
        tell_others(alloc, gate, folder, names, settings, update, known);
    }
}

/// Tells of each file that is refused, but for one that is known.
fn tell_others<F: Folder, G: Gate>(
    alloc: Global,
    gate: &G,
    folder: &mut F,
    names: &[Name],
    settings: &Settings<'_>,
    update: Option<&[u8]>,
    known: Refusal<'_>,
)
    requires many { length names.now < 2 ^ 32 }
    requires count { F.count folder.old ≡ length names.now }

    ensures count { F.count folder.new ≡ F.count folder.old }
    ensures files { F.files folder.new ≡ F.files folder.old }
    ensures later { F.faults folder.old ≤ F.faults folder.new }
{
    let told = match update {
        None => tell_of_inputs(alloc, gate, folder, names, settings, known),
        Some(update) => tell_of_both(alloc, gate, folder, names, settings, update, known),
    };
    if told.is_ok() {
        tell_of_sizes(alloc, gate, folder, names, settings, known);
    }
}

/// Tells of each ephemeris that is refused, but for one that is known.
fn tell_of_inputs<F: Folder, G: Gate>(
    alloc: Global,
    gate: &G,
    folder: &mut F,
    names: &[Name],
    settings: &Settings<'_>,
    known: Refusal<'_>,
) -> Result<(), InputError>
    requires many { length names.now < 2 ^ 32 }
    requires count { F.count folder.old ≡ length names.now }

    ensures count { F.count folder.new ≡ F.count folder.old }
    ensures files { F.files folder.new ≡ F.files folder.old }
    ensures later { F.faults folder.old ≤ F.faults folder.new }
{
    let entries = list_inputs(alloc, names, settings.suffix, Apart::of(settings))?;
    tell_of_files(alloc, gate, folder, &entries, settings, b"", None, known)?;
    Ok(())
}

/// The same of base files and of updates.
fn tell_of_both<F: Folder, G: Gate>(
    alloc: Global,
    gate: &G,
    folder: &mut F,
    names: &[Name],
    settings: &Settings<'_>,
    update: &[u8],
    known: Refusal<'_>,
) -> Result<(), InputError>
    requires many { length names.now < 2 ^ 32 }
    requires count { F.count folder.old ≡ length names.now }

    ensures count { F.count folder.new ≡ F.count folder.old }
    ensures files { F.files folder.new ≡ F.files folder.old }
    ensures later { F.faults folder.old ≤ F.faults folder.new }
{
    let base = list_base(alloc, names, settings.suffix, update, Apart::of(settings))?;
    let frame = tell_of_files(alloc, gate, folder, &base, settings, b"", None, known)?;
    let updates = list_updates(alloc, names, settings.suffix, update, Apart::of(settings))?;
    tell_of_files(
        alloc, gate, folder, &updates, settings, update, frame, known,
    )?;
    Ok(())
}

/// Tells each of these files that is refused, but for one that is known. The end of their names is not that under which they are read; before
/// them stand some of this frame. Answers the frame of the first.
fn tell_of_files<F: Folder, G: Gate>(
    alloc: Global,
    gate: &G,
    folder: &mut F,
    entries: &[Entry],
    settings: &Settings<'_>,
    end: &[u8],
    mut frame: Option<Frame>,
    known: Refusal<'_>,
) -> Result<Option<Frame>, InputError>
    requires { All (λ entry. entry.number < F.count folder.old) entries.now }

    ensures count { F.count folder.new ≡ F.count folder.old }
    ensures files { F.files folder.new ≡ F.files folder.old }
    ensures later { F.faults folder.old ≤ F.faults folder.new }
{
    for entry in entries {
        let track = read_alone(alloc, folder, entry, settings, end);
        frame = tell_of_track(alloc, gate, entry, track, frame, known)?;
    }
    Ok(frame)
}

/// The track of a file alone; none where an update has no bytes.
fn read_alone<F: Folder>(
    alloc: Global,
    folder: &mut F,
    entry: &Entry,
    settings: &Settings<'_>,
    end: &[u8],
) -> Result<Option<Track>, InputError>
    requires { entry.now.number < F.count folder.old }

    ensures count { F.count folder.new ≡ F.count folder.old }
    ensures files { F.files folder.new ≡ F.files folder.old }
    ensures later { F.faults folder.old ≤ F.faults folder.new }
{
    let name = entry.name.as_slice();
    let bytes = read_file(alloc, folder, entry.number, name)?;
    if bytes.is_empty() && !end.is_empty() {
        return Ok(None);
    }
    let read = updated_name(name, end);
    let track = parse_bytes(alloc, read, name, &bytes, settings.as_hermite3)?;
    Ok(Some(track))
}

/// Tells that a file is refused, or that its track has another frame than the first. Answers the frame of the first.
fn tell_of_track<G: Gate>(
    alloc: Global,
    gate: &G,
    entry: &Entry,
    track: Result<Option<Track>, InputError>,
    frame: Option<Frame>,
    known: Refusal<'_>,
) -> Result<Option<Frame>, InputError> {
    match track {
        Ok(None) => Ok(frame),
        Ok(Some(track)) => {
            let first = frame.unwrap_or(track.frame);
            if first != track.frame {
                let mixed = Refusal {
                    file: entry.name.as_slice(),
                    line: 0,
                    cause: FileCause::MixedFrames,
                };
                tell_other(alloc, gate, mixed, known)?;
            }
            Ok(Some(first))
        }
        Err(InputError::Refused { file, line, cause }) => {
            let refusal = Refusal {
                file: file.as_slice(),
                line,
                cause,
            };
            tell_other(alloc, gate, refusal, known)?;
            Ok(frame)
        }
        Err(other) => Err(other),
    }
}

/// Tells that the file of sizes is refused, where it is and is not the one that is known.
fn tell_of_sizes<F: Folder, G: Gate>(
    alloc: Global,
    gate: &G,
    folder: &mut F,
    names: &[Name],
    settings: &Settings<'_>,
    known: Refusal<'_>,
)
    requires many { length names.now < 2 ^ 32 }
    requires count { F.count folder.old ≡ length names.now }

    ensures count { F.count folder.new ≡ F.count folder.old }
    ensures files { F.files folder.new ≡ F.files folder.old }
    ensures later { F.faults folder.old ≤ F.faults folder.new }
{
    if let Err(InputError::Refused { file, line, cause }) = read_size_lines(
        alloc,
        folder,
        names,
        settings.sizes,
    ) {
        let refusal = Refusal {
            file: file.as_slice(),
            line,
            cause,
        };
        // It is the last: where there is no memory for it, nothing more is told.
        let _ = tell_other(alloc, gate, refusal, known);
    }
}

/// Tells that a file is refused, where it is not the one that is known.
fn tell_other<G: Gate>(
    alloc: Global,
    gate: &G,
    refusal: Refusal<'_>,
    known: Refusal<'_>,
) -> Result<(), AllocError> {
    if refusal.file == known.file {
        return Ok(());
    }
    tell(alloc, gate, refusal)
}

/// Tells the fault line of a file that is refused.
fn tell<G: Gate>(alloc: Global, gate: &G, refusal: Refusal<'_>) -> Result<(), AllocError> {
    let status = Status::BadFile {
        file: Name::copy_of(alloc, refusal.file)?,
        line: refusal.line,
        cause: refusal.cause,
    };
    let line = fault_text(alloc, &status)?;
    gate.refuse(&line);
    Ok(())
}
