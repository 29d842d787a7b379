//! What is taken of a track that is read: all of it, or what the window needs.
ghost use Rattle.std.specs.Prelude.{◌≡◌, option_map, IfOk};
ghost use Rattle.cj_track.specs.Tracks.{plain_track};
ghost use Rattle.cj_words.specs.Settings.{plain_settings};
ghost use Rattle.cj_inputs.specs.Trims as spec;
ghost use Rattle.cj_inputs.specs.Trims.{ends};

use cj_base::Window;
use cj_track::Track;
use cj_trim::trim;
use cj_words::Settings;
use std::alloc::{AllocError, Global};

/// The window to which the tracks of a run are trimmed, where they are: that of a large run for which both its ends are given.
fn window_to_trim(settings: &Settings<'_>) -> Option<Window>
    ensures { option_map ends result ≡ spec.trims_of (plain_settings settings.now) }
{
    if !settings.large {
        return None;
    }
    Some(Window {
        first: settings.from?,
        last: settings.to?,
    })
}

/// A track as it is taken: trimmed to the window, where tracks are.
pub fn left_of(alloc: Global, track: Track, settings: &Settings<'_>) -> Result<Track, AllocError>
    ensures { IfOk result (λ left. plain_track left ≡ spec.left_of (spec.trims_of (plain_settings settings.now)) (plain_track track)) }
{
    match window_to_trim(settings) {
        None => Ok(track),
        Some(window) => trim(alloc, &track, window),
    }
}
