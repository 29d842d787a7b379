//! Which covariance is told at a tick, by a look at all of the segment.
ghost use Rattle.std.specs.Prelude.{◌≡◌, ◌<◌, length, map, option_map};
ghost use Rattle.cj_track.specs.Tracks.{plain_matrix, plain_track};
ghost use Rattle.cj_hermite.specs.Pieces.{pieces_of};
ghost use Rattle.cj_case.specs.Problems.{plain_problem};
ghost use Rattle.cj_cdm.specs.Building as building;
ghost use Rattle.cj_cdm.specs.Covariances as spec;
ghost use Rattle.cj_cdm.specs.Covariances.{not_after, segment_with};

use cj_base::Tick;
use cj_case::Problem;
use cj_hermite::{piece_at, segment_of};
use cj_track::{Matrix, Track};

/// The covariance of an object for a tick, or none where it has no state there or its segment has no covariance.
pub(crate) fn object_covariance(problem: &Problem, object: u32, at: Tick) -> Option<&Matrix>
    ensures { option_map (λ m. plain_matrix m.now) result ≡ building.object_covariance (plain_problem problem.now) object at.micros }
{
    let track = problem.tracks.as_slice().get(object as usize)?;
    covariance_at(track, at)
}

/// The covariance of a track for a tick.
#[tactic(auto, unfolding(crate::specs::Covariances::covariance_at))]
fn covariance_at(track: &Track, at: Tick) -> Option<&Matrix>
    ensures { option_map (λ m. plain_matrix m.now) result ≡ spec.covariance_at (plain_track track.now) at.micros }
{
    let index = piece_at(track, at)?;
    covariance_for(matrices_of(track, index), at)
}

/// The covariances of the segment in which the piece with this number lies.
fn matrices_of(track: &Track, index: u32) -> &[Matrix]
    requires { index < length (pieces_of (plain_track track.now)) }
    ensures { option_map (λ segment. segment.covariances) (segment_with index (plain_track track.now).segments) ≡ Some (map plain_matrix result.now) }
{
    let number = segment_of(track, index);
    track.segments.as_slice()[number as usize]
        .matrices
        .as_slice()
}

/// The latest that is not after the tick, the last of equals, and else the first.
#[tactic(auto, unfolding(crate::specs::Covariances::covariance_for))]
fn covariance_for(matrices: &[Matrix], at: Tick) -> Option<&Matrix>
    ensures { option_map (λ m. plain_matrix m.now) result ≡ spec.covariance_for at.micros (map plain_matrix matrices.now) }
{
    latest(matrices, at).or(matrices.first())
}

/// The latest that is not after the tick, the last of equals.
fn latest(matrices: &[Matrix], at: Tick) -> Option<&Matrix>
    ensures { option_map (λ m. plain_matrix m.now) result ≡ spec.latest (not_after at.micros (map plain_matrix matrices.now)) }
{
    let mut latest = None;
    for matrix in matrices {
        if matrix.at <= at {
            latest = Some(later(latest, matrix));
        }
    }
    latest
}

/// The later of two covariances, and the second where their epochs are equal.
fn later<'a>(first: Option<&'a Matrix>, second: &'a Matrix) -> &'a Matrix
    ensures { Some (plain_matrix result.now) ≡ spec.later (option_map (λ m. plain_matrix m.now) first.entry) (plain_matrix second.now) }
{
    match first {
        Some(first) if second.at < first.at => first,
        _ => second,
    }
}
