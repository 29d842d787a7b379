//! The piece of an object over some ticks, made ready, and its hull.
ghost use Rattle.std.specs.Prelude.{◌≡◌, ◌≤◌, IfSome, IsTrue, Some};
ghost use Rattle.cj_case.specs.PlainProblems.{PlainProblem};
ghost use Rattle.cj_case.specs.Problems.{plain_problem};
ghost use Rattle.cj_hermite.specs.Interpolant.{IsOver, curve_of};
ghost use Rattle.cj_hermite.specs.ObjectsAtTicks.{curve_at};
ghost use Rattle.cj_hermite.specs.Whole.{IsWhole};
ghost use Rattle.cj_slabs.specs.Cuts.{IsCut};

use cj_base::{Tick, Window};
use cj_bezier::{Hull, hull_ready};
use cj_case::Problem;
use cj_hermite::{Hint, Piece, Ready, piece_of, ready, run_from};
use cj_interval::Divisor;

/// How long the pieces of most tracks are: a minute of ticks.
const USUAL_SPAN: u64 = 60_000_000;

/// The piece of an object over the ticks from `first` to `last`, at which it is at no other, made ready, and its hull over them.
#[derive(Clone, Copy)]
pub struct Cut {
    pub object: u32,
    pub first: Tick,
    pub last: Tick,
    pub ready: Ready,
    pub hull: Hull,
}

impl Cut {
    /// Whether it is that of an object over these ticks.
    pub fn is_of(&self, object: u32, first: Tick, last: Tick) -> bool
        ensures object { IsTrue result → self.now.object ≡ object }
        ensures first { IsTrue result → self.now.first.micros ≡ first.micros }
        ensures last { IsTrue result → self.now.last.micros ≡ last.micros }
    {
        self.object == object && self.first == first && self.last == last
    }
}

/// The cut of an object over ticks at which it is at one piece.
pub fn cut_at(problem: &Problem, object: u32, first: Tick, last: Tick) -> Cut
    requires order { first.micros ≤ last.micros }
    requires whole { IsWhole (plain_problem problem.now) object first.micros last.micros }
    ensures { IsCut (plain_problem problem.now) result }
{
    cut_of(object, first, last, &piece_of(problem, object, first))
}

/// The cut of an object over ticks, none where it is not at one piece at all of them. The hint then says where it is.
pub fn cut_over(problem: &Problem, object: u32, ticks: Window, hint: &mut Hint) -> Option<Cut>
    requires { ticks.first.micros ≤ ticks.last.micros }
    ensures { IfSome result (IsCut (plain_problem problem.now)) }
{
    let track = problem.tracks.as_slice().get(object as usize)?;
    let run = run_from(track, ticks.first, ticks.last, hint)?;
    if run.ticks.first == ticks.first && run.ticks.last == ticks.last {
        Some(cut_of(object, ticks.first, ticks.last, &run.piece))
    } else {
        None
    }
}

/// The cut of an object over ticks at which it is at this piece.
fn cut_of(object: u32, first: Tick, last: Tick, piece: &Piece) -> Cut
    requires order { first.micros ≤ last.micros }
    requires over { IsOver (curve_of piece.now) first.micros last.micros }
    ensures { (case : PlainProblem) → IsWhole case object first.micros last.micros → curve_at case object first.micros ≡ Some (curve_of piece.now)
        → IsCut case result }
{
    let made = ready(piece, &Divisor::new(USUAL_SPAN));
    Cut {
        object,
        first,
        last,
        ready: made,
        hull: hull_ready(&made, first, last),
    }
}
