//! The parts of a track, one after another.
ghost use Rattle.std.specs.Prelude.{◌≤◌, IfSome, IfNone};
ghost use Rattle.cj_track.specs.Tracks.{plain_track};
ghost use Rattle.cj_hermite.specs.Walks.{HasNone};
ghost use Rattle.cj_bezier.specs.FirstParts.{IsFirstPart};
ghost use Rattle.cj_bezier.specs.Parts.{AreInTime};

use crate::guide::Guide;
use crate::hull_of_piece::hull_ready;
use crate::part::Part;
use cj_base::Tick;
use cj_hermite::{ready, run_from};
use cj_track::Track;

/// The first part of a track from one tick to another. The guide then says where it is.
pub fn next_part(track: &Track, from: Tick, last: Tick, guide: &mut Guide) -> Option<Part>
    // There is none exactly where the track has no state.
    ensures none { IfNone result (HasNone (plain_track track.now) from.micros last.micros) }

    // The hulls from the tick on are this part's and those from the tick behind it on, up to whichever tick from its last one on.
    ensures first { IfSome result (IsFirstPart (plain_track track.now) from.micros last.micros) }
    ensures later { IfSome result (λ part. from.micros ≤ part.last.micros) }
    ensures within { IfSome result (λ part. part.last.micros ≤ last.micros) }

    // A track's pieces come in order of time.
    ensures time { IfSome result (λ part. AreInTime (plain_track track.now) from.micros part.last.micros) }
{
    let run = run_from(track, from, last, &mut guide.hint)?;
    let piece = ready(&run.piece, &guide.divisor);
    guide.divisor = piece.divisor;
    Some(Part {
        hull: hull_ready(&piece, run.ticks.first, run.ticks.last),
        last: run.ticks.last,
    })
}
