//! The values of the first level: `span` cancels at its ends, and its middle has one rest.
ghost use Rattle.std.specs.Prelude.{◌≡◌, ◌+◌, ◌-◌, ◌*◌, ◌<◌, ◌≤◌, pos, ◌+ℤ◌, ◌-ℤ◌, ◌*ℤ◌};
ghost use Rattle.cj_interval.specs.Rounding.{floor_div, ceil_div};
ghost use Rattle.cj_interval.specs.Sizes.{IsWithin};
ghost use Rattle.cj_track.specs.Limits.{MAX_COORDINATE};
ghost use Rattle.cj_hermite.specs.Levels.{between, level};
ghost use Rattle.cj_hermite.specs.Limits.{MAX_SPAN, REACH};
ghost use Rattle.cj_hermite.specs.Ready.{speed_of, controls_ready};

use crate::level_spans::Bounds;
use crate::ready_axis::{ReadyAxis, Speed};
use cj_interval::{Fraction, rounded_up};

/// The parts of a nanometre in which a rate in nm/s is counted over a third of a tick.
const PARTS: u64 = 3_000_000;

/// The whole nanometres that are covered in `ticks` thirds of a tick.
fn covered(whole: i64, ticks: u64) -> i64
    requires few { IsWithin 6666667 whole }
    requires short { ticks ≤ MAX_SPAN }
    ensures value { result ≡ whole *ℤ pos ticks }
    ensures within { IsWithin 24000001200000000 result }
{
    whole * ticks as i64
}

/// The sum of two places or ways.
fn sum(a: i64, b: i64) -> i64
    requires first { IsWithin 2000000000000000000 a }
    requires second { IsWithin 2000000000000000000 b }
    ensures { result ≡ a +ℤ b }
{
    a + b
}

/// The way from one place to another.
fn way(from: i64, to: i64) -> i64
    requires first { IsWithin MAX_COORDINATE from }
    requires second { IsWithin MAX_COORDINATE to }
    ensures { result ≡ to -ℤ from }
{
    to - from
}

/// Whole nanometres, and `parts` of 3,000,000 of one, of which the whole ones are carried.
fn carried(whole: i64, parts: u64) -> (i64, u64)
    requires within { IsWithin 50000000000000000 whole }
    requires few { parts < 22000000000000000 }
    ensures value { whole *ℤ pos 3000000 +ℤ pos parts ≡ result.0 *ℤ pos 3000000 +ℤ pos result.1 }
    ensures rest { result.1 < 3000000 }
    ensures near { IsWithin 60000000000000000 result.0 }
{
    (sum(whole, (parts / PARTS) as i64), parts % PARTS)
}

/// What a rate covers in a third of `ticks`: whole nanometres, and what is left over in parts.
fn way_of(rate: &Speed, ticks: u64) -> (i64, u64)
    requires { ticks ≤ MAX_SPAN }
    ensures value { speed_of rate.now *ℤ pos ticks ≡ result.0 *ℤ pos 3000000 +ℤ pos result.1 }
    ensures rest { result.1 < 3000000 }
    ensures near { IsWithin 60000000000000000 result.0 }
{
    carried(covered(rate.whole, ticks), rate.rest * ticks)
}

/// What two rates cover, one in a third of `before` ticks, and one in a third of `after` ticks.
fn way_of_both(first: &Speed, before: u64, second: &Speed, after: u64) -> (i64, u64)
    requires first_short { before ≤ MAX_SPAN }
    requires second_short { after ≤ MAX_SPAN }
    ensures value { speed_of first.now *ℤ pos before +ℤ speed_of second.now *ℤ pos after ≡ result.0 *ℤ pos 3000000 +ℤ pos result.1 }
    ensures rest { result.1 < 3000000 }
    ensures near { IsWithin 60000000000000000 result.0 }
{
    let whole = sum(covered(first.whole, before), covered(second.whole, after));
    carried(whole, first.rest * before + second.rest * after)
}

/// The least bounds of a number with `rest` left over a whole one.
fn bounds(whole: i64, rest: u64) -> Bounds
    requires low { IsWithin REACH whole }
    requires high { 0 < rest → IsWithin REACH (whole +ℤ pos 1) }
    ensures lower { result.lo ≡ whole }
    ensures exact { rest ≡ 0 → result.hi ≡ whole }
    ensures next { 0 < rest → result.hi ≡ whole +ℤ pos 1 }
{
    Bounds {
        lo: whole,
        hi: rounded_up(whole, rest),
    }
}

/// A place, moved for a third of `ticks` at a rate.
pub fn outer(place: i64, rate: &Speed, ticks: u64) -> Bounds
    requires within { IsWithin MAX_COORDINATE place }
    requires short { ticks ≤ MAX_SPAN }
    ensures lower { result.lo ≡ floor_div (pos 3000000 *ℤ place +ℤ speed_of rate.now *ℤ pos ticks) 3000000 }
    ensures upper { result.hi ≡ ceil_div (pos 3000000 *ℤ place +ℤ speed_of rate.now *ℤ pos ticks) 3000000 }
{
    let (way, rest) = way_of(rate, ticks);
    bounds(sum(place, way), rest)
}

/// A whole number and `rest` of `of`, where `of` is left out of the rest at most once.
fn once_less(whole: i64, rest: u64, of: u64) -> (i64, u64)
    requires within { IsWithin 1800000000000000000 whole }
    requires small { rest < 2 * of }
    requires short { of < 11000000000000000 }
    ensures value { whole *ℤ pos of +ℤ pos rest ≡ result.0 *ℤ pos of +ℤ pos result.1 }
    ensures rest { result.1 < of }
{
    if rest < of {
        (whole, rest)
    } else {
        (whole + 1, rest - of)
    }
}

/// The middle value before its division by `of` ticks and 3,000,000 parts: the quotient, and what is left over.
fn middle(axis: &ReadyAxis, at: &Fraction) -> (i64, u64)
    requires { at.now.of ≤ MAX_SPAN }
    ensures value { between at.now.of at.now.at (controls_ready axis.now at.now.of).k1 (controls_ready axis.now at.now.of).k2
        ≡ result.0 *ℤ pos (at.now.of * 3000000) +ℤ pos result.1 }
    ensures rest { result.1 < at.now.of * 3000000 }
{
    let (between, left) = at.split(way(axis.from, axis.to));
    let (way, parts) = way_of_both(&axis.out, at.of - at.at, &axis.back, at.at);
    let whole = sum(sum(axis.from, between), way);
    once_less(whole, PARTS * left + at.of * parts, at.of * PARTS)
}

/// The middle value of the first level.
pub fn inner(axis: &ReadyAxis, at: &Fraction) -> Bounds
    requires { at.now.of ≤ MAX_SPAN }
    ensures lower { result.lo ≡ level floor_div 3000000 at.now.of at.now.at (controls_ready axis.now at.now.of).k1 (controls_ready axis.now at.now.of).k2 }
    ensures upper { result.hi ≡ level ceil_div 3000000 at.now.of at.now.at (controls_ready axis.now at.now.of).k1 (controls_ready axis.now at.now.of).k2 }
{
    let (whole, rest) = middle(axis, at);
    bounds(whole, rest)
}
