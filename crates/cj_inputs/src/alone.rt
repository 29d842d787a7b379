//! From the files of a folder to tracks that are read each for itself.
ghost use Rattle.std.specs.Prelude.{◌≡◌, ◌<◌, ◌≤◌, List, [], Some, Err, All, IfErr};
ghost use Rattle.cj_base.specs.Limits.{plain_limits};
ghost use Rattle.cj_io.specs.Faults.{Rose};
ghost use Rattle.cj_io.specs.Files.{bytes_of};
ghost use Rattle.cj_io.specs.declared.file.FileBytes.{FileBytes};
ghost use Rattle.cj_track.specs.Tracks.{plain_track};
ghost use Rattle.cj_words.specs.Commands.{plain_thinning};
ghost use Rattle.cj_inputs.specs.Alone as spec;
ghost use Rattle.cj_inputs.specs.Readings.{Reads, reading_of};
ghost use Rattle.cj_status.specs.Steps.{Gives, ComesBetween};

use crate::apart::Apart;
use crate::batch::FileRead;
use crate::input_files::Entry;
use crate::lone_tracks::LoneTracks;
use crate::parsing::parse_file;
use crate::preparing::list_few_inputs;
use crate::reading::{InputError, read_file};
use crate::warnings::warn_of_names;
use cj_base::Limits;
use cj_io::{Folder, Gate};
use cj_status::Status;
use cj_track::Track;
use cj_words::Thinning;
use std::alloc::Global;

/// Reads the files that are taken one after another, up to the first that is refused or beyond a limit. Their frames are not compared. The gate is
/// warned of those that are not taken.
#[tactic(auto, unfolding(crate::specs::Alone::tracks_asked))]
pub fn read_alone<F: Folder, G: Gate>(
    alloc: Global,
    gate: &G,
    folder: &mut F,
    thinning: &Thinning,
    limits: Limits,
) -> Result<LoneTracks, Status>
    ensures between { IfErr result ComesBetween }
    ensures read { result ≡ Err Status.ReadFault → Rose (F.faults folder.old) (F.faults folder.new) }
    ensures told { (files : List FileBytes) → F.files folder.old ≡ Some files
        → Gives (Rose (F.faults folder.old) (F.faults folder.new)) spec.plain_tracks result
        (spec.tracks_asked (plain_limits limits) files (plain_thinning thinning.now)) }

    ensures files { F.files folder.new ≡ F.files folder.old }
    ensures later { F.faults folder.old ≤ F.faults folder.new }
{
    let names = folder.names(alloc)?;
    let entries = list_few_inputs(alloc, &names, thinning.suffix, Apart::none(), limits)?;
    warn_of_names(gate, &names, &entries, thinning.suffix, Apart::none(), None);
    let lone = read_each(alloc, folder, &entries, thinning.as_hermite3, limits)?;
    Ok(lone)
}

/// The tracks of these files.
fn read_each<F: Folder>(
    alloc: Global,
    folder: &mut F,
    entries: &[Entry],
    as_hermite3: bool,
    limits: Limits,
) -> Result<LoneTracks, InputError>
    requires { All (λ entry. entry.number < F.count folder.old) entries.now }

    ensures fault { result ≡ Err InputError.Failed → Rose (F.faults folder.old) (F.faults folder.new) }
    ensures told { (files : List FileBytes) → F.files folder.old ≡ Some files
        → Reads (Rose (F.faults folder.old) (F.faults folder.new)) spec.plain_tracks result
        (spec.readings_alone as_hermite3 limits.nodes files [] entries.now) }

    ensures files { F.files folder.new ≡ F.files folder.old }
    ensures later { F.faults folder.old ≤ F.faults folder.new }
{
    let mut lone = LoneTracks::with_capacity(alloc, entries.len())?;
    for entry in entries {
        let track = read_track(alloc, folder, entry, as_hermite3)?;
        lone = lone.with(track, limits)?;
    }
    Ok(lone)
}

/// The track of a file.
#[tactic(auto, unfolding(crate::specs::Readings::reading_of))]
fn read_track<F: Folder>(
    alloc: Global,
    folder: &mut F,
    entry: &Entry,
    as_hermite3: bool,
) -> Result<Track, InputError>
    requires { entry.now.number < F.count folder.old }

    ensures fault { result ≡ Err InputError.Failed → Rose (F.faults folder.old) (F.faults folder.new) }
    ensures told { (files : List FileBytes) → F.files folder.old ≡ Some files
        → Reads (Rose (F.faults folder.old) (F.faults folder.new)) plain_track result
        (reading_of as_hermite3 entry.now.name (bytes_of files entry.now.number)) }

    ensures count { F.count folder.new ≡ F.count folder.old }
    ensures files { F.files folder.new ≡ F.files folder.old }
    ensures later { F.faults folder.old ≤ F.faults folder.new }
{
    let name = entry.name.as_slice();
    let bytes = read_file(alloc, folder, entry.number, name)?;
    parse_file(alloc, &FileRead { name, bytes }, as_hermite3)
}
