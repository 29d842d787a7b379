//! Ticks on end at which a track has a state.
ghost use Rattle.std.specs.Prelude.{MatchOption};
ghost use Rattle.cj_track.specs.Segments.{AreInOrder};
ghost use Rattle.cj_track.specs.Tracks.{plain_track};
ghost use Rattle.cj_hermite.specs.Walks.{AreEnded, HasNoMore, HasNone};
ghost use Rattle.cj_coverage.specs.Coverage.{HasAll};
ghost use Rattle.cj_coverage.specs.Stretches.{GoesOn, IsNextSpan, IsNextStretch};

use cj_base::{Tick, Window};
use cj_track::{Segment, Track};

/// The first of the covered spans of a track from a tick to a last one.
pub(crate) fn next_span(track: &Track, from: Tick, last: Tick) -> Option<Window>
    ensures { MatchOption result (HasNone (plain_track track.now) from.micros last.micros) (IsNextSpan (plain_track track.now) from.micros last.micros) }
{
    let stretch = next_stretch(track, from)?;
    if last.micros < stretch.first.micros {
        return None;
    }
    let longest = gone_on(track, stretch, last);
    Some(Window {
        first: longest.first,
        last: longest.last.earlier(last),
    })
}

/// The ticks of one segment at which a track has a state, from the first such tick from `from` on.
fn next_stretch(track: &Track, from: Tick) -> Option<Window>
    ensures { MatchOption result (HasNoMore (plain_track track.now) from.micros) (IsNextStretch (plain_track track.now) from.micros) }
{
    let segments = track.segments.as_slice();
    let ended = ended(segments, from);
    if ended == segments.len() {
        return None;
    }
    Some(Window {
        first: segments[ended].first.later(from),
        last: segments[ended].last,
    })
}

/// How many segments end before a tick.
fn ended(segments: &[Segment], at: Tick) -> usize
    requires { AreInOrder segments.now }
    ensures { AreEnded at.micros segments.now result }
{
    segments.partition_point(|segment| segment.last.micros < at.micros)
}

/// A stretch with those that follow it without a gap, up to the last tick that is asked for, or beyond.
fn gone_on(track: &Track, stretch: Window, last: Tick) -> Window
    requires { HasAll (plain_track track.now) stretch.first.micros stretch.last.micros }
    ensures { GoesOn (plain_track track.now) last.micros stretch result }
{
    let mut longest = stretch;
    while longest.last.micros < last.micros {
        let behind = longest.last.next();
        let Some(next) = next_stretch(track, behind) else {
            return longest;
        };
        if behind.micros < next.first.micros {
            return longest;
        }
        longest.last = next.last;
    }
    longest
}
