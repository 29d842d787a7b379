//! The state of a piece at a tick, in whole nm and nm/s.
ghost use Rattle.std.specs.Prelude.{◌≡◌, ℕ, ◌≤◌};
ghost use Rattle.cj_interval.specs.Sizes.{IsWithin};
ghost use Rattle.cj_hermite.specs.Boxes.{IsSpanWithin, IsBoxWithin};
ghost use Rattle.cj_hermite.specs.Interpolant.{curve_of};
ghost use Rattle.cj_hermite.specs.Limits.{REACH, RATE_REACH};
ghost use Rattle.cj_rtn.specs.States as spec;
ghost use Rattle.cj_rtn.specs.Vectors.{IsEachWithin};

use crate::state::State;
use crate::vector::Vector;
use cj_base::Tick;
use cj_hermite::{Box3, Piece, point, rate};
use cj_interval::Span;

/// The place of a piece at one of its ticks, in nm.
#[tactic(auto, unfolding(crate::specs::States::place_at))]
pub fn place_at(piece: &Piece, at: Tick) -> Vector
    requires after { piece.now.t0.micros ≤ at.micros }
    requires before { at.micros ≤ piece.now.t1.micros }
    ensures value { result ≡ spec.place_at (curve_of piece.now) at.micros }
    ensures within { IsEachWithin REACH result }
{
    middle_of_box(point(piece, at))
}

/// The rate of a piece at one of its ticks, in nm/s.
#[tactic(auto, unfolding(crate::specs::States::rate_at))]
pub fn rate_at(piece: &Piece, at: Tick) -> Vector
    requires after { piece.now.t0.micros ≤ at.micros }
    requires before { at.micros ≤ piece.now.t1.micros }
    ensures value { result ≡ spec.rate_at (curve_of piece.now) at.micros }
    ensures within { IsEachWithin RATE_REACH result }
{
    middle_of_box(rate(piece, at))
}

/// Both.
pub(crate) fn state_at(piece: &Piece, at: Tick) -> State
    requires after { piece.now.t0.micros ≤ at.micros }
    requires before { at.micros ≤ piece.now.t1.micros }
    ensures value { result ≡ spec.state_at (curve_of piece.now) at.micros }
    ensures within { IsEachWithin REACH result.place }
{
    State {
        place: place_at(piece, at),
        rate: rate_at(piece, at),
    }
}

fn middle_of_box(spans: Box3) -> Vector
    requires { IsBoxWithin RATE_REACH spans }
    ensures value { result ≡ spec.middle_of_box spans }
    ensures within { (m : ℕ) → IsBoxWithin m spans → IsEachWithin m result }
{
    Vector {
        x: middle(spans.x),
        y: middle(spans.y),
        z: middle(spans.z),
    }
}

/// The middle of a span, rounded down.
fn middle(span: Span) -> i128
    requires { IsSpanWithin RATE_REACH span.lo span.hi }
    ensures value { result ≡ spec.middle span.lo span.hi }
    ensures within { (m : ℕ) → IsSpanWithin m span.lo span.hi → IsWithin m result }
{
    Span::between(span.lo, span.hi, 1, 2, 1).lo
}
