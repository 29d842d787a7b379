ghost use Rattle.std.specs.Prelude.{◌≡◌, ◌↔◌, ℕ, map, Any, IfOk};
ghost use Rattle.cj_track.specs.Tracks.{plain_track};
ghost use Rattle.cj_hermite.specs.CommonRuns.{run_of};
ghost use Rattle.cj_coverage.specs.Coverage as spec;
ghost use Rattle.cj_coverage.specs.Coverage.{AreApart, IsCovered, IsIn};

use crate::stretches::next_span;
use cj_base::Window;
use cj_track::Track;
use std::alloc::{AllocError, Global};

/// The covered spans of a track in a window, in order: the runs of ticks at which it has a state.
pub fn covered_spans(
    alloc: Global,
    track: &Track,
    window: Window,
) -> Result<Vec<Window>, AllocError>
    ensures value { IfOk result (λ spans. map run_of spans.items ≡ spec.covered_spans (plain_track track.now) window.first.micros window.last.micros) }
    // A tick of the window is in a span exactly where the track has a state there.
    ensures exact { IfOk result (λ spans. (m : ℕ)
        → Any (IsIn m) (map run_of spans.items) ↔ IsCovered (plain_track track.now) window.first.micros window.last.micros m) }
    ensures apart { IfOk result (λ spans. AreApart (map run_of spans.items)) }
{
    let mut spans = Vec::new(alloc);
    let mut from = window.first;
    while let Some(span) = next_span(track, from, window.last) {
        spans.push(span)?;
        if span.last.micros == window.last.micros {
            return Ok(spans);
        }
        from = span.last.next();
    }
    Ok(spans)
}
