//! The interpolants of a problem have lengths, so that its lists are true.
ghost use Rattle.std.specs.Prelude.{ℕ, Bool};
ghost use Rattle.cj_case.specs.Problems.{plain_problem};
ghost use Rattle.cj_hermite.specs.Lengths.{HaveLengths, IsRising};
ghost use Rattle.cj_pool.specs.TrueLists.{IsTrueList};
ghost use Rattle.cj_track.specs.Tracks.{plain_track};

use cj_case::Problem;
use cj_track::Track;

/// The times of a track's nodes rise: it does nothing else than to look at its segments.
fn rising(track: &Track)
    ensures { IsRising (plain_track track.now) }
{
    for segment in track.segments.as_slice() {
        let _nodes = segment.nodes.as_slice();
    }
}

/// The times of all nodes rise, so that each interpolant has a length: it does nothing else than to look at the tracks.
pub(crate) fn have_lengths(problem: &Problem)
    ensures { HaveLengths (plain_problem problem.now) }
{
    for track in problem.tracks.as_slice() {
        rising(track);
    }
}

/// The one-thread list of a problem is true, by whatever test its candidates are found and whoever finds its leaves: it does nothing else than to look
/// at the tracks.
pub fn true_lists(problem: &Problem)
    ensures { (candidate : ℕ → ℕ → ℕ → Bool) → IsTrueList candidate (plain_problem problem.now) }
{
    have_lengths(problem);
}
