//! The state of an object relative to another.
ghost use Rattle.std.specs.Prelude.{◌≡◌, ℕ, ◌≤◌, IfSome, option_map};
ghost use Rattle.cj_case.specs.Problems.{plain_problem};
ghost use Rattle.cj_hermite.specs.Distance.{IsWithinAt};
ghost use Rattle.cj_hermite.specs.Interpolant.{curve_of};
ghost use Rattle.cj_hermite.specs.Limits.{REACH};
ghost use Rattle.cj_hermite.specs.ObjectsAtTicks.{curve_at};
ghost use Rattle.cj_rtn.specs.Exact.{IsNearlyAt, MOST_DISTANCE};
ghost use Rattle.cj_rtn.specs.Relative.{relative_of, relative_at, object_relative};
ghost use Rattle.cj_rtn.specs.Vectors.{IsEachWithin};

use crate::measuring::{axes_of, is_slow, values_along};
use crate::relative::Rtn;
use crate::state::State;
use crate::states::state_at;
use crate::vectors::less;
use cj_base::Tick;
use cj_case::{Pair, Problem};
use cj_hermite::{Piece, piece, piece_at};

/// The state of the second piece relative to the first at a tick of both, along the axes of the first, or none where the first has no axes
/// there, or a rate of one of both exceeds that of a node.
pub fn rtn(a: &Piece, b: &Piece, at: Tick) -> Option<Rtn>
    requires a_after { a.now.t0.micros ≤ at.micros }
    requires a_before { at.micros ≤ a.now.t1.micros }
    requires b_after { b.now.t0.micros ≤ at.micros }
    requires b_before { at.micros ≤ b.now.t1.micros }
    ensures value { result ≡ relative_at (curve_of a.now) (curve_of b.now) at.micros }

    // Where they are not too far apart, each value is within one millimetre, or one millimetre per second, of the exact one.
    ensures law { IsWithinAt (curve_of a.now) (curve_of b.now) MOST_DISTANCE at.micros → IfSome result (IsNearlyAt (curve_of a.now) (curve_of b.now) at.micros) }
{
    relative(&state_at(a, at), &state_at(b, at))
}

/// The same of two states.
#[tactic(auto, unfolding(crate::specs::Relative::relative_of))]
fn relative(a: &State, b: &State) -> Option<Rtn>
    requires first { IsEachWithin REACH a.now.place }
    requires second { IsEachWithin REACH b.now.place }
    ensures { result ≡ relative_of a.now b.now }
{
    if !is_slow(a) || !is_slow(b) {
        return None;
    }
    let axes = axes_of(a)?;
    Some(Rtn {
        place: values_along(&axes, &less(&b.place, &a.place)),
        rate: values_along(&axes, &less(&b.rate, &a.rate)),
    })
}

/// The state of the second object of a pair relative to the first at a tick, along the axes of the first, or none where one of both has no
/// state, the first has no axes, or a rate exceeds that of a node.
pub fn relative_state(problem: &Problem, pair: Pair, at: Tick) -> Option<Rtn>
    ensures { result ≡ object_relative (plain_problem problem.now) pair.a pair.b at.micros }
{
    let a = piece_of_object(problem, pair.a, at)?;
    let b = piece_of_object(problem, pair.b, at)?;
    rtn(&a, &b, at)
}

/// The piece in which an object is at a tick, or none where it has no state.
fn piece_of_object(problem: &Problem, object: u32, at: Tick) -> Option<Piece>
    ensures curve { option_map curve_of result ≡ curve_at (plain_problem problem.now) object at.micros }
    ensures after { IfSome result (λ x. x.t0.micros ≤ at.micros) }
    ensures before { IfSome result (λ x. at.micros ≤ x.t1.micros) }
{
    let track = problem.tracks.as_slice().get(object as usize)?;
    let index = piece_at(track, at)?;
    Some(piece(track, index))
}
