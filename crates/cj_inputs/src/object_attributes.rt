//! What files beside ephemerides say of the objects of a run.
ghost use Rattle.std.specs.Prelude.{◌≡◌, ◌<◌, ◌≤◌, ◌^◌, List, Some, Err, length, map};
ghost use Rattle.cj_io.specs.Faults.{Rose};
ghost use Rattle.cj_io.specs.Files.{names_of};
ghost use Rattle.cj_io.specs.declared.file.FileBytes.{FileBytes};
ghost use Rattle.cj_track.specs.Tracks.{plain_track};
ghost use Rattle.cj_words.specs.Settings.{plain_settings};
ghost use Rattle.cj_inputs.specs.ObjectAttributes as spec;
ghost use Rattle.cj_inputs.specs.Readings.{Reads};

use crate::object_primaries::{primaries_named, read_named};
use crate::object_sizes::read_size_lines;
use crate::reading::InputError;
use cj_base::Text;
use cj_case::Primaries;
use cj_io::{Folder, Name};
use cj_sizes::SizeLine;
use cj_track::Track;
use cj_words::Settings;
use std::alloc::{AllocError, Global};

/// The sizes that are given, and the designators of the primaries, where such are named.
#[derive(Drop)]
pub struct Attributes {
    pub sizes: Vec<SizeLine>,
    pub primaries: Option<Vec<Text>>,
}

impl Attributes {
    ghost use Rattle.std.specs.Prelude.{◌≡◌, IfOk, length, map};
    ghost use Rattle.cj_case.specs.Primaries.{marks_of};
    ghost use Rattle.cj_track.specs.Tracks.{plain_track};
    ghost use Rattle.cj_inputs.specs.ObjectAttributes.{plain_attributes};
    ghost use Rattle.cj_inputs.specs.ObjectPrimaries.{object_primaries};

    /// Which of the objects of tracks are primaries.
    pub fn primaries_among(&self, alloc: Global, tracks: &[Track]) -> Result<Primaries, AllocError>
        ensures value { IfOk result (λ primaries. primaries ≡ object_primaries (plain_attributes self.now).primaries (map plain_track tracks.now)) }
        ensures many { IfOk result (λ primaries. marks_of primaries (length tracks.now) ≡ length tracks.now) }
    {
        match &self.primaries {
            None => Ok(Primaries::all()),
            Some(named) => primaries_named(alloc, named, tracks),
        }
    }
}

/// Reads the files of sizes and of primaries that settings name, where objects are those of these tracks and of others. These are the
/// names of the folder.
#[tactic(auto, unfolding(crate::specs::ObjectAttributes::attributes_asked))]
pub fn read_attributes<F: Folder>(
    alloc: Global,
    folder: &mut F,
    names: &[Name],
    tracks: &[Track],
    others: &[Track],
    settings: &Settings<'_>,
) -> Result<Attributes, InputError>
    requires many { length names.now < 2 ^ 32 }
    requires count { F.count folder.old ≡ length names.now }

    ensures fault { result ≡ Err InputError.Failed → Rose (F.faults folder.old) (F.faults folder.new) }
    ensures told { (files : List FileBytes) → F.files folder.old ≡ Some files → names.now ≡ names_of files
        → Reads (Rose (F.faults folder.old) (F.faults folder.new)) spec.plain_attributes result
        (spec.attributes_asked (map plain_track tracks.now) (map plain_track others.now) files (plain_settings settings.now)) }

    ensures count { F.count folder.new ≡ F.count folder.old }
    ensures files { F.files folder.new ≡ F.files folder.old }
    ensures later { F.faults folder.old ≤ F.faults folder.new }
{
    let sizes = read_size_lines(alloc, folder, names, settings.sizes)?;
    let primaries = read_named(alloc, folder, names, tracks, others, settings.primaries)?;
    Ok(Attributes { sizes, primaries })
}
