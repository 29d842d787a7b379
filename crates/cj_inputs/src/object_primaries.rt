//! Which objects are primaries, by the file that the command line names for them.
ghost use Rattle.std.specs.Prelude.{◌≡◌, ◌<◌, ◌≤◌, ◌^◌, ◌++◌, List, ℕ, Result, Ok, Err, Some, length, map, option_map, IfOk, OnOk};
ghost use Rattle.std.specs.Borrow.{Bor};
ghost use Rattle.std.specs.Option.{option_copied};
ghost use Rattle.cj_case.specs.Primaries.{marks_of};
ghost use Rattle.cj_io.specs.Faults.{Rose};
ghost use Rattle.cj_io.specs.Files.{bytes_of, names_of};
ghost use Rattle.cj_io.specs.declared.file.FileBytes.{FileBytes};
ghost use Rattle.cj_kvn.specs.Faults.{Gives};
ghost use Rattle.cj_sizes.specs.Primaries.{Fault};
ghost use Rattle.cj_track.specs.Tracks.{plain_track};
ghost use Rattle.cj_inputs.specs.ObjectPrimaries as spec;
ghost use Rattle.cj_inputs.specs.Readings.{Reads};

use crate::object_sizes::first_named;
use crate::reading::{InputError, read_file};
use cj_base::Text;
use cj_case::Primaries;
use cj_io::{Folder, Name};
use cj_sizes::{PrimariesFault, are_named, read_primaries};
use cj_status::FileCause;
use cj_track::Track;
use std::alloc::{AllocError, Global};

/// The designators that the file with this name names as primaries, where objects are those of these tracks and of others; none
/// where no file is named. These are the names of the folder.
#[tactic(auto, unfolding(crate::specs::ObjectPrimaries::primaries_asked))]
pub fn read_named<F: Folder>(
    alloc: Global,
    folder: &mut F,
    names: &[Name],
    tracks: &[Track],
    others: &[Track],
    file: Option<&[u8]>,
) -> Result<Option<Vec<Text>>, InputError>
    requires many { length names.now < 2 ^ 32 }
    requires count { F.count folder.old ≡ length names.now }

    ensures fault { result ≡ Err InputError.Failed → Rose (F.faults folder.old) (F.faults folder.new) }
    ensures told { (files : List FileBytes) → F.files folder.old ≡ Some files → names.now ≡ names_of files
        → Reads (Rose (F.faults folder.old) (F.faults folder.new)) (λ named. option_map (λ ids. ids.items) named) result
        (spec.primaries_asked (spec.ids_of (map plain_track tracks.now) ++ spec.ids_of (map plain_track others.now)) files (option_copied file.entry)) }

    ensures count { F.count folder.new ≡ F.count folder.old }
    ensures files { F.files folder.new ≡ F.files folder.old }
    ensures later { F.faults folder.old ≤ F.faults folder.new }
{
    let Some(name) = file else {
        return Ok(None);
    };
    let Some(number) = first_named(names, name) else {
        return Err(InputError::Refused {
            file: Name::copy_of(alloc, name)?,
            line: 0,
            cause: FileCause::NoPrimaries,
        });
    };
    let known = ids_of(alloc, tracks, others)?;
    let named = named_in(alloc, folder, number, name, &known)?;
    Ok(Some(named))
}

/// What the file with this number says, which has this name.
fn named_in<F: Folder>(
    alloc: Global,
    folder: &mut F,
    number: u32,
    name: &[u8],
    known: &[&[u8]],
) -> Result<Vec<Text>, InputError>
    requires { number < F.count folder.old }

    ensures fault { result ≡ Err InputError.Failed → Rose (F.faults folder.old) (F.faults folder.new) }
    ensures told { (files : List FileBytes) → F.files folder.old ≡ Some files
        → Reads (Rose (F.faults folder.old) (F.faults folder.new)) (λ ids. ids.items) result
        (spec.primaries_of_file (map (λ (id : Bor (List ℕ)). id.now) known.now) name.now (bytes_of files number)) }

    ensures count { F.count folder.new ≡ F.count folder.old }
    ensures files { F.files folder.new ≡ F.files folder.old }
    ensures later { F.faults folder.old ≤ F.faults folder.new }
{
    let bytes = read_file(alloc, folder, number, name)?;
    let read = read_primaries(alloc, known, &bytes);
    named_by(alloc, name, read)
}

/// What a file with this name is taken for, of which this is read.
fn named_by(
    alloc: Global,
    name: &[u8],
    read: Result<Vec<Text>, PrimariesFault>,
) -> Result<Vec<Text>, InputError>
    ensures { (said : Result (List (List ℕ)) Fault) → Gives (λ ids. ids.items) read said → Reads ⊥ (λ ids. ids.items) result (spec.refused_primaries name.now said) }
{
    match read {
        Ok(ids) => some_named(alloc, name, ids),
        Err(PrimariesFault::Memory) => Err(InputError::Memory),
        Err(PrimariesFault::At { line, cause }) => Err(InputError::Refused {
            file: Name::copy_of(alloc, name)?,
            line,
            cause: FileCause::Primaries(cause),
        }),
    }
}

/// The designators that a file with this name names, which names somebody.
fn some_named(alloc: Global, name: &[u8], ids: Vec<Text>) -> Result<Vec<Text>, InputError>
    ensures { Reads ⊥ (λ ids. ids.items) result (spec.refused_primaries name.now (Ok ids.items)) }
{
    if ids.is_empty() {
        return Err(InputError::Refused {
            file: Name::copy_of(alloc, name)?,
            line: 0,
            cause: FileCause::NoPrimaries,
        });
    }
    Ok(ids)
}

/// The designators of the objects of tracks, and of others behind them.
fn ids_of<'t>(
    alloc: Global,
    tracks: &'t [Track],
    others: &'t [Track],
) -> Result<Vec<&'t [u8]>, AllocError>
    ensures { IfOk result (λ ids. map (λ (id : Bor (List ℕ)). id.now) ids.items
        ≡ spec.ids_of (map plain_track tracks.now) ++ spec.ids_of (map plain_track others.now)) }
{
    let mut ids = Vec::with_capacity(alloc, tracks.len().saturating_add(others.len()))?;
    push_ids(&mut ids, tracks)?;
    push_ids(&mut ids, others)?;
    Ok(ids)
}

fn push_ids<'t>(ids: &mut Vec<&'t [u8]>, tracks: &'t [Track]) -> Result<(), AllocError>
    ensures { OnOk result (map (λ (id : Bor (List ℕ)). id.now) ids.new.items
        ≡ map (λ (id : Bor (List ℕ)). id.now) ids.old.items ++ spec.ids_of (map plain_track tracks.now)) }
{
    for track in tracks {
        ids.push(track.id.as_slice())?;
    }
    Ok(())
}

/// Which of the objects of tracks are primaries, where these are named.
pub fn primaries_named(
    alloc: Global,
    named: &[Text],
    tracks: &[Track],
) -> Result<Primaries, AllocError>
    ensures value { IfOk result (λ primaries. primaries ≡ spec.object_primaries (Some named.now) (map plain_track tracks.now)) }
    ensures many { IfOk result (λ primaries. marks_of primaries (length tracks.now) ≡ length tracks.now) }
{
    let ids = ids_of(alloc, tracks, &[])?;
    let marks = are_named(alloc, named, &ids)?;
    Ok(Primaries::marked(marks))
}
