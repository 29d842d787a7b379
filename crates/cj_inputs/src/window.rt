//! The window of a run.
ghost use Rattle.std.specs.Prelude.{◌≡◌, map};
ghost use Rattle.cj_track.specs.Tracks.{plain_track};
ghost use Rattle.cj_inputs.specs.Windows as spec;
ghost use Rattle.cj_words.specs.Settings.{plain_settings};

use cj_base::{Tick, Window};
use cj_track::Track;
use cj_words::Settings;

/// The window that is asked for. An end that is left out is that of the useable spans of all tracks, or 1972-01-01T00:00:00 where
/// there are none.
pub fn window_of(settings: &Settings, tracks: &[Track]) -> Window
    ensures first { result.first.micros ≡ spec.window_first (plain_settings settings.now) (map plain_track tracks.now) }
    ensures last { result.last.micros ≡ spec.window_last (plain_settings settings.now) (map plain_track tracks.now) }
{
    let useable = useable_window(tracks);
    Window {
        first: settings.from.unwrap_or(useable.first),
        last: settings.to.unwrap_or(useable.last),
    }
}

/// From the first useable tick of all tracks to the last.
fn useable_window(tracks: &[Track]) -> Window
    ensures first { result.first.micros ≡ spec.least (map spec.start_of (map plain_track tracks.now)) }
    ensures last { result.last.micros ≡ spec.greatest (map spec.stop_of (map plain_track tracks.now)) }
{
    let [first, others @ ..] = tracks else {
        return NONE;
    };
    let mut useable = useable_span(first);
    for track in others {
        let own = useable_span(track);
        useable = Window {
            first: useable.first.earlier(own.first),
            last: useable.last.later(own.last),
        };
    }
    useable
}

/// The ends where there is no track.
const NONE: Window = Window {
    first: Tick::FIRST,
    last: Tick::FIRST,
};

/// From the first tick of a track's first segment to the last of its last.
fn useable_span(track: &Track) -> Window
    ensures first { result.first.micros ≡ spec.start_of (plain_track track.now) }
    ensures last { result.last.micros ≡ spec.stop_of (plain_track track.now) }
{
    let segments = track.segments.as_slice();
    match (segments.first(), segments.last()) {
        (Some(first), Some(last)) => Window {
            first: first.first,
            last: last.last,
        },
        _ => NONE,
    }
}
