//! The control values of a piece.
ghost use Rattle.std.specs.Prelude.{◌≡◌, ◌-◌, ◌≤◌, pos, ◌*ℤ◌};
ghost use Rattle.cj_track.specs.Limits.{MAX_COORDINATE, MAX_RATE, IsWithin};
ghost use Rattle.cj_hermite.specs.Interpolant.{four_of, controls_of, curve_of, AreBounded};
ghost use Rattle.cj_hermite.specs.Limits.{MAX_SPAN};

use crate::control_values::Controls;
use crate::pieces::Piece;

/// A coordinate in 1/3,000,000 nm.
fn scaled(p: i64) -> i128
    requires { IsWithin MAX_COORDINATE p }
    ensures value { result ≡ pos 3000000 *ℤ p }
    ensures within { IsWithin 1500000000000000000000000 result }
{
    3_000_000 * i128::from(p)
}

/// What a rate in nm/s covers in a third of `span` ticks, in 1/3,000,000 nm.
fn travelled(v: i64, span: u64) -> i128
    requires rate { IsWithin MAX_RATE v }
    requires short { span ≤ MAX_SPAN }
    ensures value { result ≡ v *ℤ pos span }
    ensures within { IsWithin 72000000000000000000000 result }
{
    i128::from(v) * i128::from(span)
}

/// The control values of an axis.
fn axis(p0: i64, v0: i64, p1: i64, v1: i64, span: u64) -> [i128; 4]
    requires first_place { IsWithin MAX_COORDINATE p0 }
    requires first_rate { IsWithin MAX_RATE v0 }
    requires last_place { IsWithin MAX_COORDINATE p1 }
    requires last_rate { IsWithin MAX_RATE v1 }
    requires short { span ≤ MAX_SPAN }
    ensures value { four_of result ≡ controls_of p0 v0 p1 v1 span }
    ensures bounded { AreBounded (four_of result) }
{
    let first = scaled(p0);
    let last = scaled(p1);
    [
        first,
        first + travelled(v0, span),
        last - travelled(v1, span),
        last,
    ]
}

/// The control values of a piece, exactly.
pub fn controls(piece: &Piece) -> Controls
    ensures x { four_of result.x ≡ (curve_of piece.now).x }
    ensures y { four_of result.y ≡ (curve_of piece.now).y }
    ensures z { four_of result.z ≡ (curve_of piece.now).z }
    ensures x_bounded { AreBounded (four_of result.x) }
    ensures y_bounded { AreBounded (four_of result.y) }
    ensures z_bounded { AreBounded (four_of result.z) }
{
    let span = piece.t1.since(piece.t0);
    Controls {
        x: axis(piece.p0.x, piece.v0.x, piece.p1.x, piece.v1.x, span),
        y: axis(piece.p0.y, piece.v0.y, piece.p1.y, piece.v1.y, span),
        z: axis(piece.p0.z, piece.v0.z, piece.p1.z, piece.v1.z, span),
    }
}
