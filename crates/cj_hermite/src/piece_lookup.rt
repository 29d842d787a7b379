//! The piece in which an object is at a tick.
ghost use Rattle.std.specs.Prelude.{◌≡◌, is_some, true, option_map};
ghost use Rattle.cj_track.specs.Tracks.{plain_track};
ghost use Rattle.cj_hermite.specs.Interpolant.{curve_of};
ghost use Rattle.cj_hermite.specs.Pieces.{piece_holding, piece_at, curve_of_piece};
ghost use Rattle.cj_hermite.specs.ObjectsAtTicks.{number_at, curve_at};
ghost use Rattle.cj_case.specs.Problems.{plain_problem};

use crate::finding::{find, found_piece};
use crate::hints::Hint;
use crate::pieces::Piece;
use cj_base::Tick;
use cj_case::Problem;
use cj_track::Track;

/// The piece of a track at a tick at which it has a state.
pub(crate) fn piece_of_track(track: &Track, at: Tick) -> Piece
    requires { is_some (piece_at (plain_track track.now) at.micros) ≡ true }
    ensures { option_map curve_of_piece (piece_holding (plain_track track.now) at.micros) ≡ Some (curve_of result) }
{
    match find(track, at, Hint::default()) {
        Some(found) => found_piece(track, found),
        None => unreachable!(),
    }
}

/// The piece of an object at a tick at which it has a state.
pub fn piece_of(problem: &Problem, object: u32, at: Tick) -> Piece
    requires { is_some (number_at (plain_problem problem.now) object at.micros) ≡ true }
    ensures { curve_at (plain_problem problem.now) object at.micros ≡ Some (curve_of result) }
{
    piece_of_track(&problem.tracks.as_slice()[object as usize], at)
}
