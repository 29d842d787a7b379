//! The sizes of the objects, by the file that the command line names for them.
ghost use Rattle.std.specs.Prelude.{◌≡◌, ◌<◌, ◌≤◌, ◌^◌, List, Option, Some, Err, length, map, IfOk, IfSome};
ghost use Rattle.std.specs.Option.{option_copied};
ghost use Rattle.cj_io.specs.Faults.{Rose};
ghost use Rattle.cj_io.specs.Files.{bytes_of, names_of};
ghost use Rattle.cj_io.specs.declared.file.FileBytes.{FileBytes};
ghost use Rattle.cj_sizes.specs.Sizes.{sizes_of};
ghost use Rattle.cj_track.specs.Tracks.{plain_track};
ghost use Rattle.cj_inputs.specs.ObjectSizes as spec;
ghost use Rattle.cj_inputs.specs.Readings.{Reads};

use crate::reading::{InputError, read_file};
use cj_case::Sizes;
use cj_io::{Folder, Name};
use cj_sizes::{SizeLine, SizesFault, radii_of, read_sizes};
use cj_status::FileCause;
use cj_track::Track;
use std::alloc::{AllocError, Global};

/// What the file with this name says of sizes; nothing where no file is named. These are the names of the folder.
#[tactic(auto, unfolding(crate::specs::ObjectSizes::sizes_asked))]
pub fn read_size_lines<F: Folder>(
    alloc: Global,
    folder: &mut F,
    names: &[Name],
    file: Option<&[u8]>,
) -> Result<Vec<SizeLine>, InputError>
    requires many { length names.now < 2 ^ 32 }
    requires count { F.count folder.old ≡ length names.now }

    ensures fault { result ≡ Err InputError.Failed → Rose (F.faults folder.old) (F.faults folder.new) }
    ensures told { (files : List FileBytes) → F.files folder.old ≡ Some files → names.now ≡ names_of files
        → Reads (Rose (F.faults folder.old) (F.faults folder.new)) (λ lines. sizes_of lines.items) result (spec.sizes_asked files (option_copied file.entry)) }

    ensures count { F.count folder.new ≡ F.count folder.old }
    ensures files { F.files folder.new ≡ F.files folder.old }
    ensures later { F.faults folder.old ≤ F.faults folder.new }
{
    let Some(name) = file else {
        return Ok(Vec::new(alloc));
    };
    match first_named(names, name) {
        Some(number) => lines_of_file(alloc, folder, number, name),
        None => Err(InputError::Refused {
            file: Name::copy_of(alloc, name)?,
            line: 0,
            cause: FileCause::NoSizes,
        }),
    }
}

/// The number of the first file with a name.
pub fn first_named(names: &[Name], name: &[u8]) -> Option<u32>
    requires { length names.now < 2 ^ 32 }
    ensures value { result ≡ spec.first_named name.now names.now }
    ensures within { IfSome result (λ number. number < length names.now) }
{
    let number = place_of(names, name)?;
    Some(number as u32)
}

fn place_of(names: &[Name], name: &[u8]) -> Option<usize>
    ensures { result ≡ spec.first_named name.now names.now }
{
    names.iter().position(|other| other.as_slice() == name)
}

/// What the file with this number says, which has this name.
#[tactic(auto, unfolding(crate::specs::ObjectSizes::sizes_of_file))]
fn lines_of_file<F: Folder>(
    alloc: Global,
    folder: &mut F,
    number: u32,
    name: &[u8],
) -> Result<Vec<SizeLine>, InputError>
    requires { number < F.count folder.old }

    ensures fault { result ≡ Err InputError.Failed → Rose (F.faults folder.old) (F.faults folder.new) }
    ensures told { (files : List FileBytes) → F.files folder.old ≡ Some files
        → Reads (Rose (F.faults folder.old) (F.faults folder.new)) (λ lines. sizes_of lines.items) result (spec.sizes_of_file name.now (bytes_of files number)) }

    ensures count { F.count folder.new ≡ F.count folder.old }
    ensures files { F.files folder.new ≡ F.files folder.old }
    ensures later { F.faults folder.old ≤ F.faults folder.new }
{
    let bytes = read_file(alloc, folder, number, name)?;
    match read_sizes(alloc, &bytes) {
        Ok(lines) => Ok(lines),
        Err(SizesFault::Memory) => Err(InputError::Memory),
        Err(SizesFault::At { line, cause }) => Err(InputError::Refused {
            file: Name::copy_of(alloc, name)?,
            line,
            cause: FileCause::Sizes(cause),
        }),
    }
}

/// The size of the object of each track.
pub fn sizes_of_tracks(
    alloc: Global,
    lines: &[SizeLine],
    tracks: &[Track],
) -> Result<Sizes, AllocError>
    ensures value { IfOk result (λ sizes. sizes ≡ spec.object_sizes (sizes_of lines.now) (map plain_track tracks.now)) }
    ensures many { IfOk result (λ sizes. length sizes ≡ length tracks.now) }
{
    let mut ids = Vec::with_capacity(alloc, tracks.len())?;
    for track in tracks {
        ids.push(track.id.as_slice())?;
    }
    let radii = radii_of(alloc, lines, &ids)?;
    Ok(Sizes::new(radii))
}
