//! Tracks that take the places of others, by the names of their files.
ghost use Rattle.std.specs.Prelude.{◌≡◌, ◌≤◌, fold, length, OnOk};
ghost use Rattle.cj_inputs.specs.Places as spec;
ghost use Rattle.cj_inputs.specs.Updates.{updated_names, with_others, without_first};

use crate::input_files::Entry;
use crate::updates::updated_name;
use cj_track::Track;
use std::alloc::AllocError;

/// Lets go, for each update, the first track whose file has the name that it updates.
pub fn let_updated_go(tracks: &mut Vec<Track>, updates: &[Entry], update: &[u8])
    ensures value { tracks.new.items ≡ fold (without_first spec.file_of) tracks.old.items (updated_names update.now updates.now) }
    ensures fewer { length tracks.new.items ≤ length tracks.old.items }
{
    for entry in updates {
        let_first_go(tracks, updated_name(entry.name.as_slice(), update));
    }
}

/// Lets go the first track whose file has this name.
fn let_first_go(tracks: &mut Vec<Track>, name: &[u8])
    ensures { tracks.new.items ≡ without_first spec.file_of tracks.old.items name.now }
{
    match place_of(tracks, name) {
        Some(place) => drop(tracks.remove(place)),
        None => {}
    }
}

/// The place of the first track whose file has this name.
fn place_of(tracks: &[Track], name: &[u8]) -> Option<usize>
    ensures { result ≡ spec.place_of tracks.now name.now }
{
    tracks
        .iter()
        .position(|track| track.file.as_slice() == name)
}

/// Puts others among tracks that are in order of the names of their files: each at its place, before all of its own name.
pub fn place_others(tracks: &mut Vec<Track>, mut others: Vec<Track>) -> Result<(), AllocError>
    ensures { OnOk result (tracks.new.items ≡ with_others spec.file_of others.items tracks.old.items) }
{
    while let Some(other) = others.pop() {
        let place = place_before(tracks, &other);
        tracks.insert(place, other)?;
    }
    Ok(())
}

/// How many tracks stand before the place of another one.
#[tactic(auto, using(crate::proofs::PlaceLemmas::place_found, crate::proofs::PlaceLemmas::place_past))]
fn place_before(tracks: &[Track], other: &Track) -> usize
    ensures { result ≡ spec.place_before tracks.now other.now }
{
    match first_behind(tracks, other) {
        Some(place) => place,
        None => tracks.len(),
    }
}

/// The place of the first track that does not stand before another one.
fn first_behind(tracks: &[Track], other: &Track) -> Option<usize>
    ensures { result ≡ spec.first_behind tracks.now other.now }
{
    tracks.iter().position(|track| !stands_before(track, other))
}

/// Whether a track stands before another one.
fn stands_before(track: &Track, other: &Track) -> bool
    ensures { result ≡ spec.stands_before track.now other.now }
{
    track.file < other.file
}
