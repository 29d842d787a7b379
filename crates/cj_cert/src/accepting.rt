//! What an accepted certificate says, and that the one a run writes is accepted: laws, which cost next to nothing to call.
ghost use Rattle.std.specs.Prelude.{◌^◌, ℕ};
ghost use Rattle.std.specs.List.{All};
ghost use Rattle.cj_track.specs.Tracks.{plain_track};
ghost use Rattle.cj_case.specs.Problems.{plain_problem};
ghost use Rattle.cj_bezier.specs.Gaps.{gap_terms};
ghost use Rattle.cj_bezier.specs.Parts.{AreInTime, hulls_of};
ghost use Rattle.cj_bezier.specs.Shells.{IsOuter};
ghost use Rattle.cj_cert.specs.Accepted.{Accepted};
ghost use Rattle.cj_cert.specs.Reaches.{AllStayNear, IsHullNear};
ghost use Rattle.cj_cert.specs.Splits.{AcceptedSplits};
ghost use Rattle.cj_cert.specs.Written.{written};

use cj_case::Problem;
use cj_track::Track;

/// The cells of a certificate that is accepted for a problem split the common ticks: at each tick of a near cell its pair is near, at
/// each of an undecided cell it is within a millimetre of its threshold, and at a common tick in neither it is far.
pub fn acceptance(problem: &Problem)
    ensures splits { AcceptedSplits (plain_problem problem.now) }

    // Exact shells and boxes and the one-thread list make a certificate that is accepted.
    ensures written { Accepted (plain_problem problem.now) (written (plain_problem problem.now)) }

    // The hulls of each object lie within a million kilometres of the origin.
    ensures near { AllStayNear (plain_problem problem.now) }
{
    let tracks = problem.tracks.as_slice();
    for track in tracks {
        rules_of(track);
    }
}

/// What the rules of segments and nodes say of the pieces and hulls of a track.
fn rules_of(track: &Track)
    ensures time { (from to : ℕ) → AreInTime (plain_track track.now) from to }
    ensures within { (from to : ℕ) → All (λ h. IsOuter (gap_terms h) (10 ^ 18)) (hulls_of (plain_track track.now) from to) }
    ensures near { (from to : ℕ) → All IsHullNear (hulls_of (plain_track track.now) from to) }
{
    let segments = track.segments.as_slice();
    for segment in segments {
        let _nodes = segment.nodes.as_slice();
    }
}
