ghost use Rattle.std.specs.Prelude.{◌≡◌, ◌+◌, ◌<◌, ◌≤◌, None, Some, count_by, is_some, option_map};
ghost use Rattle.cj_base.specs.PlainTicks.{micros_of};
ghost use Rattle.cj_case.specs.Problems.{plain_problem};
ghost use Rattle.cj_track.specs.Tracks.{plain_track};
ghost use Rattle.cj_coverage.specs.Coverage as spec;

use crate::stretches::next_span;
use cj_base::{Tick, Window};
use cj_case::Problem;
use cj_track::Track;

/// The first tick of a window at which a track has no state.
pub fn first_uncovered(track: &Track, window: Window) -> Option<Tick>
    ensures { option_map micros_of result ≡ spec.first_uncovered (plain_track track.now) window.first.micros window.last.micros }
{
    if window.last.micros < window.first.micros {
        return None;
    }
    match next_span(track, window.first, window.last) {
        None => Some(window.first),
        Some(span) => first_outside(window, span),
    }
}

/// The first tick of a window that lies outside of a span of it.
fn first_outside(window: Window, span: Window) -> Option<Tick>
    ensures before { window.first.micros < span.first.micros → option_map micros_of result ≡ Some window.first.micros }
    ensures behind { span.first.micros ≤ window.first.micros → span.last.micros < window.last.micros → option_map micros_of result ≡ Some (span.last.micros + 1) }
    ensures none { span.first.micros ≤ window.first.micros → window.last.micros ≤ span.last.micros → option_map micros_of result ≡ None }
{
    if window.first.micros < span.first.micros {
        Some(window.first)
    } else if span.last.micros < window.last.micros {
        Some(span.last.next())
    } else {
        None
    }
}

/// How many objects of a problem do not cover its whole window.
#[tactic(auto, using(crate::proofs::UncoveredLemmas::counted))]
pub fn count_uncovered(problem: &Problem) -> usize
    ensures { result ≡ spec.uncovered_count (plain_problem problem.now) }
{
    count_in(problem.tracks.as_slice(), problem.window)
}

fn count_in(tracks: &[Track], window: Window) -> usize
    ensures { result ≡ count_by (λ t. is_some (spec.first_uncovered (plain_track t) window.first.micros window.last.micros)) tracks.now }
{
    tracks
        .iter()
        .filter(|track| leaves_out(track, window))
        .count()
}

/// Whether a track has no state at some tick of a window.
#[tactic(auto, using(crate::proofs::UncoveredLemmas::mapped_some))]
fn leaves_out(track: &Track, window: Window) -> bool
    ensures { result ≡ is_some (spec.first_uncovered (plain_track track.now) window.first.micros window.last.micros) }
{
    first_uncovered(track, window).is_some()
}
