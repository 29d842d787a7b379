//! The fields of a message, from a problem.
ghost use Rattle.std.specs.Prelude.{◌≡◌, IfSome, Some, option_map};
ghost use Rattle.cj_track.specs.Tracks.{plain_matrix, plain_track};
ghost use Rattle.cj_case.specs.Problems.{plain_problem};
ghost use Rattle.cj_cdm.specs.Building.{message_of, object_side, side_of};
ghost use Rattle.cj_cdm.specs.Covariances.{covariance_at};
ghost use Rattle.cj_cdm.specs.Fields.{AreShort, message_of_fields, side_of_fields, stamp_of};

use crate::covariance_index::CovarianceIndex;
use crate::fields::{MessageFields, SideFields};
use crate::stamp::Stamp;
use cj_base::Tick;
use cj_case::Pair;
use cj_hermite::{piece, piece_at};
use cj_rtn::{place_at, rate_at};
use cj_track::{Matrix, Track};

/// The fields of the message of a pair whose closest approach this is, or none where an object has no covariance.
#[tactic(auto, unfolding(crate::specs::Building::message_of))]
pub(crate) fn fields_of<'a>(
    covariances: &'a CovarianceIndex<'_>,
    pair: Pair,
    tca: Tick,
    miss: u64,
    stamp: Stamp<'a>,
) -> Option<MessageFields<'a>>
    ensures value { option_map message_of_fields result ≡ message_of (plain_problem covariances.now) pair.a pair.b tca.micros miss (stamp_of stamp.entry) }
    ensures short { IfSome result (λ fields. AreShort fields.first × AreShort fields.second) }
    ensures miss { IfSome result (λ fields. fields.miss ≡ miss) }
{
    let first = side_of_object(covariances, pair.a, tca)?;
    let second = side_of_object(covariances, pair.b, tca)?;
    Some(MessageFields {
        stamp,
        tca,
        miss,
        window: covariances.problem().window,
        first,
        second,
    })
}

fn side_of_object<'a>(
    covariances: &'a CovarianceIndex<'_>,
    object: u32,
    at: Tick,
) -> Option<SideFields<'a>>
    ensures value { option_map side_of_fields result ≡ object_side (plain_problem covariances.now) object at.micros }
    ensures short { IfSome result AreShort }
{
    let matrix = covariances.at(object, at)?;
    let track = covariances
        .problem()
        .tracks
        .as_slice()
        .get(object as usize)?;
    side_of_track(track, matrix, at)
}

/// What a message says of a track at a tick, for which this is its covariance.
#[tactic(auto, unfolding(crate::specs::Building::side_of))]
fn side_of_track<'a>(track: &'a Track, matrix: &'a Matrix, at: Tick) -> Option<SideFields<'a>>
    requires { covariance_at (plain_track track.now) at.micros ≡ Some (plain_matrix matrix.now) }
    ensures value { option_map side_of_fields result ≡ side_of (plain_track track.now) at.micros }
    ensures short { IfSome result AreShort }
{
    let index = piece_at(track, at)?;
    let piece = piece(track, index);
    Some(SideFields {
        track,
        place: place_at(&piece, at),
        rate: rate_at(&piece, at),
        matrix,
    })
}
