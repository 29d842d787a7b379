//! Gaps over a run of ticks, and whether they show the distance to one millimetre.
ghost use Rattle.std.specs.Prelude.{◌≡◌, ◌<◌, ◌≤◌, ◌^◌, pos, slice_index_or};
ghost use Rattle.cj_interval.specs.Sizes.{IsWithin};
ghost use Rattle.cj_hermite.specs.Interpolant.{Curve, IsOver};
ghost use Rattle.cj_hermite.specs.Ready.{curve_ready};
ghost use Rattle.cj_bezier.specs.Gaps.{terms_of, gap_terms, hull_gap};
ghost use Rattle.cj_bezier.specs.Hulls.{highs};
ghost use Rattle.cj_bezier.specs.Squares.{least_square};
ghost use Rattle.cj_meet.specs.Closest.{approach_at};
ghost use Rattle.cj_meet.specs.Flat.{is_flat, raised};
ghost use Rattle.cj_meet.specs.Searches.{plain_approach};

use crate::approaches::Approach;
use crate::runs::Waiting;
use cj_bezier::{Gap, gap, greatest_square, hull_ready};
use cj_case::BAND;
use cj_hermite::Ready;
use cj_interval::isqrt_down;

/// The gap of two pieces made ready, over a run of ticks.
pub fn gap_over(a: &Ready, b: &Ready, run: Waiting) -> Gap
    requires first_over { IsOver (curve_ready a.now) run.first.micros run.last.micros }
    requires second_over { IsOver (curve_ready b.now) run.first.micros run.last.micros }
    ensures { terms_of result.terms ≡ gap_terms (hull_gap (curve_ready a.now) (curve_ready b.now) run.first.micros run.last.micros) }
{
    gap(
        &hull_ready(a, run.first, run.last),
        &hull_ready(b, run.first, run.last),
    )
}

/// An upper end of a gap.
fn end(gap: &Gap, number: usize) -> i128
    requires { number < 7 }
    ensures value { result ≡ slice_index_or (highs gap.now.terms) number (pos 0) }
    ensures within { IsWithin (2 ^ 126) result }
{
    gap.terms[number].hi
}

/// The first and the last tick of a run, with the bounds that the gap over it gives.
pub fn ends(gap: &Gap, run: Waiting) -> (Approach, Approach)
    ensures { (c d : Curve) → terms_of gap.now.terms ≡ gap_terms (hull_gap c d run.first.micros run.last.micros)
        → (plain_approach result.0 ≡ approach_at c d run.first.micros) × (plain_approach result.1 ≡ approach_at c d run.last.micros) }
{
    (
        Approach::new(run.first, end(gap, 0)),
        Approach::new(run.last, end(gap, 6)),
    )
}

/// The square of the whole root of a square, and one millimetre more.
fn raised(low: u128) -> u128
    requires { low ≤ 2 ^ 126 }
    ensures { result ≡ raised low }
{
    let root = isqrt_down(low);
    let more = u128::from(root) + u128::from(BAND);
    more * more
}

/// Whether a gap, whose least square is `low`, shows the distance to one millimetre.
pub fn is_flat(gap: &Gap, low: u128) -> bool
    requires least { low ≡ least_square (terms_of gap.now.terms) }
    requires within { low ≤ 2 ^ 126 }
    ensures { result ≡ is_flat (terms_of gap.now.terms) }
{
    greatest_square(gap) <= raised(low)
}
