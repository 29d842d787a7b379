//! The place of a piece at a tick.
ghost use Rattle.std.specs.Prelude.{◌≤◌, pos, ◌+ℤ◌, ◌≤ℤ◌};
ghost use Rattle.cj_hermite.specs.Boxes.{IsSpanWithin, IsBoxWithin, IsBoxNarrow, IsPolar, IsPoint, HoldsAxis, HoldsPlace};
ghost use Rattle.cj_hermite.specs.Interpolant.{curve_of};
ghost use Rattle.cj_hermite.specs.Limits.{MAX_SPAN, REACH};
ghost use Rattle.cj_hermite.specs.Ready.{controls_ready};

use crate::box3::Box3;
use crate::levels::polar;
use crate::pieces::Piece;
use crate::ready_axis::ReadyAxis;
use crate::readying::ready;
use cj_base::Tick;
use cj_interval::{Divisor, Fraction, Span};

/// The place of an axis, in nm.
fn coordinate(axis: &ReadyAxis, at: &Fraction) -> Span
    requires { at.now.of ≤ MAX_SPAN }
    ensures value { IsPolar (controls_ready axis.now at.now.of) at.now.of at.now.at at.now.at at.now.at result }
    ensures holds { HoldsAxis (controls_ready axis.now at.now.of) at.now.of at.now.at result }
    ensures narrow { result.hi ≤ℤ (result.lo +ℤ pos 3) }
    ensures within { IsSpanWithin REACH result.lo result.hi }
{
    polar(axis, at, at, at)
}

/// The place of a piece at one of its ticks, in nm, rounded outward.
pub fn point(piece: &Piece, at: Tick) -> Box3
    requires after { piece.now.t0.micros ≤ at.micros }
    requires before { at.micros ≤ piece.now.t1.micros }
    ensures value { IsPoint (curve_of piece.now) at.micros result }
    ensures holds { HoldsPlace (curve_of piece.now) at.micros result }
    ensures narrow { IsBoxNarrow 3 result }
    ensures within { IsBoxWithin REACH result }
{
    let divisor = Divisor::new(piece.t1.since(piece.t0));
    let ready = ready(piece, &divisor);
    let gone = divisor.fraction(at.since(piece.t0));
    Box3 {
        x: coordinate(&ready.x, &gone),
        y: coordinate(&ready.y, &gone),
        z: coordinate(&ready.z, &gone),
    }
}
