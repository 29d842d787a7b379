//! What files say that were read: one after another, or by several threads that take the next file each.
ghost use Rattle.std.specs.Prelude.{◌<◌, ◌≤◌, IfOk, get_or, length};
ghost use Rattle.cj_track.specs.Tracks.{plain_track};
ghost use Rattle.cj_words.specs.Settings.{plain_settings};
ghost use Rattle.cj_inputs.specs.Batches.{AreParsed, said_by, said_in};
ghost use Rattle.cj_oem.specs.Reading.{reading};
ghost use Rattle.cj_inputs.specs.Readings.{Reads, refused_of};
ghost use Rattle.cj_inputs.specs.declared.batch.FileRead.{FileRead};

use crate::batch::FileRead;
use crate::reading::InputError;
use crate::trims::left_of;
use cj_io::{Gate, Name, Stage};
use cj_oem::{OemFault, read_oem};
use cj_status::FileCause;
use cj_threads::{Nobody, map_dealt};
use cj_track::Track;
use cj_words::Settings;
use std::alloc::{AllocError, Global};
use std::thread::Threads;

/// The track that a file says.
pub fn parse_file(
    alloc: Global,
    file: &FileRead<'_>,
    as_hermite3: bool,
) -> Result<Track, InputError>
    ensures value { Reads ⊥ plain_track result (said_by as_hermite3 file.now) }
{
    parse_bytes(alloc, file.name, file.name, &file.bytes, as_hermite3)
}

/// The track that bytes say under a name; where they are refused, the file is told by the name that the folder has.
pub fn parse_bytes(
    alloc: Global,
    name: &[u8],
    told: &[u8],
    bytes: &[u8],
    as_hermite3: bool,
) -> Result<Track, InputError>
    requires { length bytes.now ≤ 67_108_864 }
    ensures value { Reads ⊥ plain_track result (refused_of told.now (reading name.now bytes.now as_hermite3)) }
{
    match read_oem(alloc, name, bytes, as_hermite3) {
        Ok(track) => Ok(track),
        Err(OemFault::Memory) => Err(InputError::Memory),
        Err(OemFault::At { line, cause }) => Err(InputError::Refused {
            file: Name::copy_of(alloc, told)?,
            line,
            cause: FileCause::Oem(cause),
        }),
    }
}

/// What is taken of the track that a file says.
fn parse_left(
    alloc: Global,
    file: &FileRead<'_>,
    settings: &Settings<'_>,
) -> Result<Track, InputError>
    ensures { Reads ⊥ plain_track result (said_in (plain_settings settings.now) file.now) }
{
    let whole = parse_file(alloc, file, settings.as_hermite3)?;
    let left = left_of(alloc, whole, settings)?;
    Ok(left)
}

/// What the files say, each for itself and as it is taken, by as many threads as there are workers: each takes the next file. The gate is told of
/// each.
pub fn parse_files<R: Threads + Sync, G: Gate + Sync>(
    rt: &R,
    alloc: Global,
    gate: &G,
    files: &[FileRead<'_>],
    settings: &Settings<'_>,
    workers: u32,
) -> Result<Vec<Result<Track, InputError>>, AllocError>
    ensures { IfOk result (λ readings. AreParsed (plain_settings settings.now) files.now readings.items) }
{
    let parse = |number: usize| -> Result<Track, InputError>
        requires { number < length files.now }
        ensures { (d : FileRead) → Reads ⊥ plain_track result (said_in (plain_settings settings.entry.now) (get_or files.entry.now number d)) }
    {
        let track = parse_left(alloc, &files[number], settings);
        gate.advance(Stage::Files, 1);
        track
    };
    map_dealt(rt, alloc, files.len(), workers as usize, &Nobody, &parse)
}
