ghost use Rattle.std.specs.Prelude.{◌≡◌, ◌≤◌, ◌<◌, ◌+◌, ◌^◌, length, map, All, IsOk, IfOk, false, Ok};
ghost use Rattle.cj_base.specs.Bounds.{MOST_MADE_OBJECTS};
ghost use Rattle.cj_gen.specs.Catalogues.{catalogue_of};
ghost use Rattle.cj_oem.specs.Reading.{reading};
ghost use Rattle.cj_track.specs.Tracks.{plain_track};
ghost use Rattle.cj_gen.specs.MadeTracks.{tracks_of};

use crate::files::catalogue;
use cj_io::FileBytes;
use cj_oem::{OemFault, read_oem};
use cj_track::Track;
use std::alloc::{AllocError, Global};

/// The tracks of the catalogue that a seed gives, in order of their numbers.
pub fn catalogue_tracks(
    alloc: Global,
    seed: u64,
    objects: u32,
    minutes: u32,
) -> Result<Vec<Track>, AllocError>
    requires objects { objects ≤ MOST_MADE_OBJECTS }
    requires some { 1 ≤ minutes }
    requires minutes { minutes ≤ 1440 }
    ensures value { IfOk result (λ tracks. map plain_track tracks.items ≡ tracks_of seed objects minutes) }
    // Each file of the catalogue is accepted by the reader.
    ensures accepted { All (λ file. IsOk (reading file.name file.bytes false)) (catalogue_of seed objects minutes) }
{
    let files = catalogue(alloc, seed, objects, minutes)?;
    let mut tracks = Vec::with_capacity(alloc, files.len())?;
    for file in &files {
        tracks.push(track(alloc, file)?)?;
    }
    Ok(tracks)
}

/// The track of a file that is accepted.
fn track(alloc: Global, file: &FileBytes) -> Result<Track, AllocError>
    requires short { length file.now.bytes + 1 < 2 ^ 32 }
    requires accepted { IsOk (reading file.now.name file.now.bytes false) }
    ensures { IfOk result (λ track. reading file.now.name file.now.bytes false ≡ Ok (plain_track track)) }
{
    match read_oem(alloc, file.name.as_slice(), file.bytes.as_slice(), false) {
        Ok(track) => Ok(track),
        Err(OemFault::Memory) => Err(AllocError),
        Err(OemFault::At { .. }) => unreachable!(),
    }
}
