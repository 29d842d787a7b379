//! De Casteljau's algorithm: levels between bounds, rounded outward.
ghost use Rattle.std.specs.Prelude.{◌≡◌, ◌-◌, ◌≤◌, pos, ◌+ℤ◌, ◌≤ℤ◌};
ghost use Rattle.cj_interval.specs.Rounding.{floor_div, ceil_div};
ghost use Rattle.cj_interval.specs.Sizes.{IsWithin};
ghost use Rattle.cj_hermite.specs.Boxes.{first_lows, first_highs, second_lows, second_highs};
ghost use Rattle.cj_hermite.specs.Levels.{level, first_values, second_values, third_value, polar};
ghost use Rattle.cj_hermite.specs.Limits.{MAX_SPAN, REACH};
ghost use Rattle.cj_hermite.specs.Ready.{controls_ready};

use crate::first_values::{inner, outer};
use crate::level_spans::{Bounds, FirstLevel, SecondLevel};
use crate::ready_axis::ReadyAxis;
use cj_interval::{Fraction, Span};

/// Between two values, a fraction of the piece on the way.
fn between(a: Bounds, b: Bounds, at: &Fraction) -> Bounds
    ensures lower { result.lo ≡ level floor_div 1 at.now.of at.now.at a.lo b.lo }
    ensures upper { result.hi ≡ level ceil_div 1 at.now.of at.now.at a.hi b.hi }
{
    Bounds {
        lo: at.down(a.lo, b.lo),
        hi: at.up(a.hi, b.hi),
    }
}

/// The first level of an axis, at a fraction of its piece.
pub fn first_level(axis: &ReadyAxis, at: &Fraction) -> FirstLevel
    requires { at.now.of ≤ MAX_SPAN }
    ensures lower { first_lows result ≡ first_values floor_div (controls_ready axis.now at.now.of) at.now.of at.now.at }
    ensures upper { first_highs result ≡ first_values ceil_div (controls_ready axis.now at.now.of) at.now.of at.now.at }
{
    FirstLevel {
        a: outer(axis.from, &axis.out, at.at),
        b: inner(axis, at),
        c: outer(axis.to, &axis.back, at.of - at.at),
    }
}

/// The second level, at another fraction.
pub fn second_level(first: &FirstLevel, at: &Fraction) -> SecondLevel
    ensures lower { second_lows result ≡ second_values floor_div (first_lows first.now) at.now.of at.now.at }
    ensures upper { second_highs result ≡ second_values ceil_div (first_highs first.now) at.now.of at.now.at }
{
    SecondLevel {
        a: between(first.a, first.b, at),
        b: between(first.b, first.c, at),
    }
}

/// The third level, at another fraction: a polar value in nm.
pub fn third_level(second: &SecondLevel, at: &Fraction) -> Span
    ensures lower { result.lo ≡ third_value floor_div (second_lows second.now) at.now.of at.now.at }
    ensures upper { result.hi ≡ third_value ceil_div (second_highs second.now) at.now.of at.now.at }
    ensures low { IsWithin REACH result.lo }
    ensures high { IsWithin REACH result.hi }
{
    let value = between(second.a, second.b, at);
    Span {
        lo: i128::from(value.lo),
        hi: i128::from(value.hi),
    }
}

/// The polar value of an axis at three fractions of its piece, in nm.
pub fn polar(axis: &ReadyAxis, u: &Fraction, v: &Fraction, w: &Fraction) -> Span
    requires short { u.now.of ≤ MAX_SPAN }
    requires second { v.now.of ≡ u.now.of }
    requires third { w.now.of ≡ u.now.of }
    ensures lower { result.lo ≡ polar floor_div (controls_ready axis.now u.now.of) u.now.of u.now.at v.now.at w.now.at }
    ensures upper { result.hi ≡ polar ceil_div (controls_ready axis.now u.now.of) u.now.of u.now.at v.now.at w.now.at }
    ensures low { IsWithin REACH result.lo }
    ensures high { IsWithin REACH result.hi }
    ensures narrow { result.hi ≤ℤ (result.lo +ℤ pos 3) }
{
    let first = first_level(axis, u);
    let second = second_level(&first, v);
    third_level(&second, w)
}
