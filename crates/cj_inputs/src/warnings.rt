//! What a person is warned of before objects are screened. No clause speaks of it.
use crate::apart::Apart;
use crate::input_files::Entry;
use crate::updates::is_update;
use cj_base::Window;
use cj_io::{Gate, Name, Warning};
use cj_sizes::SizeLine;
use cj_track::{Segment, Track};
use std::alloc::{AllocError, Global};
use std::collections::BTreeSet;

/// Things of a kind: how many there are, and the name of the first.
#[derive(Clone, Copy)]
struct Tally<'n> {
    count: u64,
    first: &'n [u8],
}

impl<'n> Tally<'n> {
    fn none() -> Tally<'n> {
        Tally {
            count: 0,
            first: b"",
        }
    }

    fn add(&mut self, name: &'n [u8]) {
        if self.count == 0 {
            self.first = name;
        }
        self.count = self.count.saturating_add(1);
    }

    /// The same, but that the first in order of names is kept.
    fn add_by_name(&mut self, name: &'n [u8]) {
        if self.count == 0 || name < self.first {
            self.first = name;
        }
        self.count = self.count.saturating_add(1);
    }

    /// Warns of them, where there are any.
    fn tell<G: Gate>(&self, gate: &G, warning: Warning) {
        if self.count > 0 {
            gate.warn(warning, self.count, self.first);
        }
    }
}

/// Warns of files that are not taken, of a folder with these names, where some may be updates. The files of sizes and of primaries are
/// none of them.
pub fn warn_of_names<G: Gate>(
    gate: &G,
    names: &[Name],
    entries: &[Entry],
    suffix: &[u8],
    apart: Apart<'_>,
    update: Option<&[u8]>,
) {
    if !gate.is_warned() {
        return;
    }
    if names.is_empty() {
        gate.warn(Warning::NoFiles, 0, b"");
    } else if entries.is_empty() {
        all_of(names).tell(gate, Warning::NothingTaken);
    }
    left_out(names, suffix, apart, update).tell(gate, Warning::LeftOut);
}

fn all_of(names: &[Name]) -> Tally<'_> {
    let mut all = Tally::none();
    for name in names {
        all.add_by_name(name.as_slice());
    }
    all
}

/// The files whose names have the suffix, but in other letters or with more behind it, and that are no updates.
fn left_out<'n>(
    names: &'n [Name],
    suffix: &[u8],
    apart: Apart<'_>,
    update: Option<&[u8]>,
) -> Tally<'n> {
    let mut others = Tally::none();
    for name in names {
        let name = name.as_slice();
        if is_nearly_named(name, suffix)
            && !apart.has(name)
            && !updates(name, suffix, apart, update)
        {
            others.add_by_name(name);
        }
    }
    others
}

/// Whether the file with this name is an update, where files may be updates.
fn updates(name: &[u8], suffix: &[u8], apart: Apart<'_>, update: Option<&[u8]>) -> bool {
    match update {
        Some(update) => is_update(name, suffix, update, apart),
        None => false,
    }
}

/// Whether a name does not end with the suffix, but has it somewhere in capitals or small letters.
fn is_nearly_named(name: &[u8], suffix: &[u8]) -> bool {
    !name.ends_with(suffix) && has_inside(name, suffix)
}

/// Whether a suffix stands somewhere in a name, in capitals or small letters.
fn has_inside(name: &[u8], suffix: &[u8]) -> bool {
    name.windows(suffix.len().max(1))
        .any(|part| part.eq_ignore_ascii_case(suffix))
}

/// Warns of tracks that have no state in the window, or one designator, and of sizes that are those of no track.
pub fn warn_of_tracks<G: Gate>(
    alloc: Global,
    gate: &G,
    tracks: &[Track],
    window: Window,
    lines: &[SizeLine],
) {
    if !gate.is_warned() {
        return;
    }
    let outside = outside_of(tracks, window);
    if outside.count == tracks.len() as u64 {
        outside.tell(gate, Warning::OutsideWindow);
    } else {
        outside.tell(gate, Warning::NoState);
    }
    // Where there is no memory for it, nothing is said: the run goes on.
    let _ = warn_of_designators(alloc, gate, tracks, lines);
}

fn outside_of(tracks: &[Track], window: Window) -> Tally<'_> {
    let mut outside = Tally::none();
    for track in tracks {
        if !has_state_in(track, window) {
            outside.add(track.file.as_slice());
        }
    }
    outside
}

fn has_state_in(track: &Track, window: Window) -> bool {
    window.first <= window.last && is_in_one_of(track.segments.as_slice(), window)
}

/// Whether a segment has a tick between the ends of a window.
fn is_in_one_of(segments: &[Segment], window: Window) -> bool {
    segments.iter().any(|segment| segment.first <= window.last && window.first <= segment.last)
}

fn warn_of_designators<G: Gate>(
    alloc: Global,
    gate: &G,
    tracks: &[Track],
    lines: &[SizeLine],
) -> Result<(), AllocError> {
    let mut ids = BTreeSet::new(alloc);
    let mut again = Tally::none();
    for track in tracks {
        if !ids.insert(track.id.as_slice())? {
            again.add(track.file.as_slice());
        }
    }
    again.tell(gate, Warning::SameObject);
    let mut strange = Tally::none();
    for line in lines {
        if !ids.contains(line.id.as_slice()) {
            strange.add(line.id.as_slice());
        }
    }
    strange.tell(gate, Warning::StrangeSize);
    Ok(())
}
