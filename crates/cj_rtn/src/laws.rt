//! What holds of all objects of a problem.
ghost use Rattle.std.specs.Prelude.{All};
ghost use Rattle.cj_case.specs.Problems.{plain_problem};
ghost use Rattle.cj_hermite.specs.Pieces.{pieces_of};
ghost use Rattle.cj_rtn.specs.Exact.{AreExact, IsTame};
ghost use Rattle.cj_track.specs.Tracks.{plain_track};

use cj_case::Problem;
use cj_track::Track;

/// At each tick at which two objects are not too far apart, each value of the second relative to the first is within one millimetre, or
/// one millimetre per second, of the exact one: it does nothing else than to look at the tracks.
pub fn exactness(problem: &Problem)
    ensures { AreExact (plain_problem problem.now) }
{
    let tracks = problem.tracks.as_slice();
    for track in tracks {
        rules_of(track);
    }
}

/// What the rules of nodes say of the pieces of a track.
fn rules_of(track: &Track)
    ensures { All IsTame (pieces_of (plain_track track.now)) }
{
    let segments = track.segments.as_slice();
    for segment in segments {
        let _nodes = segment.nodes.as_slice();
    }
}
