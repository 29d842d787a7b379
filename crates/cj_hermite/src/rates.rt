//! The rate of a piece at a tick.
ghost use Rattle.std.specs.Prelude.{◌≡◌, ◌<◌, ◌≤◌, pos, ◌+ℤ◌, ◌-ℤ◌, ◌≤ℤ◌};
ghost use Rattle.cj_interval.specs.Rounding.{floor_div, ceil_div};
ghost use Rattle.cj_interval.specs.Sizes.{IsWithin};
ghost use Rattle.cj_hermite.specs.Boxes.{IsSpanWithin, IsBoxWithin, IsBoxNarrow};
ghost use Rattle.cj_hermite.specs.Interpolant.{four_of, curve_of, AreBounded};
ghost use Rattle.cj_hermite.specs.Levels.{level};
ghost use Rattle.cj_hermite.specs.Rates.{IsAxisRate, IsRate, HoldsAxisRate, HoldsRate};
ghost use Rattle.cj_hermite.specs.Limits.{MAX_SPAN, CONTROL_REACH, RATE_REACH};

use crate::box3::Box3;
use crate::controlling::controls;
use crate::pieces::Piece;
use cj_base::Tick;
use cj_interval::Span;

/// From one control value to the next.
fn difference(first: i128, second: i128) -> i128
    requires first { IsWithin CONTROL_REACH first }
    requires second { IsWithin CONTROL_REACH second }
    ensures value { result ≡ second -ℤ first }
    ensures within { IsWithin RATE_REACH result }
{
    second - first
}

/// Between two differences, `at` of `span` ticks on the way.
fn from_differences(a: i128, b: i128, span: u64, at: u64) -> Span
    requires some { 0 < span }
    requires short { span ≤ MAX_SPAN }
    requires inside { at ≤ span }
    requires first { IsWithin RATE_REACH a }
    requires second { IsWithin RATE_REACH b }
    ensures lower { result.lo ≡ level floor_div span span at a b }
    ensures upper { result.hi ≡ level ceil_div span span at a b }
    ensures within { IsSpanWithin RATE_REACH result.lo result.hi }
{
    Span::between(a, b, at, span, span)
}

/// Between two spans of rates, `at` of `span` ticks on the way.
fn from_rates(a: Span, b: Span, span: u64, at: u64) -> Span
    requires some { 0 < span }
    requires short { span ≤ MAX_SPAN }
    requires inside { at ≤ span }
    requires first { IsSpanWithin RATE_REACH a.lo a.hi }
    requires second { IsSpanWithin RATE_REACH b.lo b.hi }
    ensures lower { result.lo ≡ level floor_div 1 span at a.lo b.lo }
    ensures upper { result.hi ≡ level ceil_div 1 span at a.hi b.hi }
    ensures within { IsSpanWithin RATE_REACH result.lo result.hi }
{
    a.lerp(b, at, span, 1)
}

/// The rate of an axis, in nm/s.
fn axis_rate(k: &[i128; 4], span: u64, at: u64) -> Span
    requires some { 0 < span }
    requires short { span ≤ MAX_SPAN }
    requires inside { at ≤ span }
    requires controls { AreBounded (four_of k.now) }
    ensures value { IsAxisRate (four_of k.now) span at result }
    ensures holds { HoldsAxisRate (four_of k.now) span at result }
    ensures narrow { result.hi ≤ℤ (result.lo +ℤ pos 2) }
    ensures within { IsSpanWithin RATE_REACH result.lo result.hi }
{
    let first = difference(k[0], k[1]);
    let second = difference(k[1], k[2]);
    let third = difference(k[2], k[3]);
    let before = from_differences(first, second, span, at);
    let after = from_differences(second, third, span, at);
    from_rates(before, after, span, at)
}

/// The rate of a piece at one of its ticks, in nm/s, rounded outward.
pub fn rate(piece: &Piece, at: Tick) -> Box3
    requires after { piece.now.t0.micros ≤ at.micros }
    requires before { at.micros ≤ piece.now.t1.micros }
    ensures value { IsRate (curve_of piece.now) at.micros result }
    ensures holds { HoldsRate (curve_of piece.now) at.micros result }
    ensures narrow { IsBoxNarrow 2 result }
    ensures within { IsBoxWithin RATE_REACH result }
{
    let controls = controls(piece);
    let span = piece.t1.since(piece.t0);
    let gone = at.since(piece.t0);
    Box3 {
        x: axis_rate(&controls.x, span, gone),
        y: axis_rate(&controls.y, span, gone),
        z: axis_rate(&controls.z, span, gone),
    }
}
