//! Pieces are made ready once for levels at many ticks.
ghost use Rattle.std.specs.Prelude.{◌≡◌, neg_ℤ};
ghost use Rattle.cj_track.specs.Limits.{MAX_COORDINATE, MAX_RATE, IsWithin};
ghost use Rattle.cj_hermite.specs.Interpolant.{curve_of};
ghost use Rattle.cj_hermite.specs.Ready.{speed_of, curve_ready};

use crate::pieces::Piece;
use crate::ready_axis::{Ready, ReadyAxis, Speed};
use cj_interval::Divisor;

/// A rate in nm/s.
fn speed(v: i64) -> Speed
    requires { IsWithin MAX_RATE v }
    ensures { speed_of result ≡ v }
{
    Speed {
        whole: v.div_euclid(3_000_000),
        rest: v.rem_euclid(3_000_000) as u64,
    }
}

/// A rate the other way.
fn turned(v: i64) -> i64
    requires { IsWithin MAX_RATE v }
    ensures value { result ≡ neg_ℤ v }
    ensures within { IsWithin MAX_RATE result }
{
    -v
}

/// An axis from its places and rates.
fn axis(p0: i64, v0: i64, p1: i64, v1: i64) -> ReadyAxis
    requires first_place { IsWithin MAX_COORDINATE p0 }
    requires first_rate { IsWithin MAX_RATE v0 }
    requires last_place { IsWithin MAX_COORDINATE p1 }
    requires last_rate { IsWithin MAX_RATE v1 }
    ensures from { result.from ≡ p0 }
    ensures to { result.to ≡ p1 }
    ensures out { speed_of result.out ≡ v0 }
    ensures back { speed_of result.back ≡ neg_ℤ v1 }
{
    ReadyAxis {
        from: p0,
        to: p1,
        out: speed(v0),
        back: speed(turned(v1)),
    }
}

/// A piece made ready: for less where a piece of the same length was made ready before.
pub fn ready(piece: &Piece, like: &Divisor) -> Ready
    ensures { curve_ready result ≡ curve_of piece.now }
{
    Ready {
        start: piece.t0,
        divisor: like.like(piece.t1.since(piece.t0)),
        x: axis(piece.p0.x, piece.v0.x, piece.p1.x, piece.v1.x),
        y: axis(piece.p0.y, piece.v0.y, piece.p1.y, piece.v1.y),
        z: axis(piece.p0.z, piece.v0.z, piece.p1.z, piece.v1.z),
    }
}
